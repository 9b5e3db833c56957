//! The table that the passes step on: its rule, and what each step tells.
use crate::known::Known;
use crate::logged::Logged;
use atomic_table::{Join, Play, Split, TableRule};
use std::marker::PhantomData;
use std::snapshot::Snapshot;

/// The rule of the lock (`specs/Rule.antt`).
pub struct Turns<V> {
    value: PhantomData<V>,
}

impl<V: Logged> TableRule<Option<V>, Known<V::Item>, Snapshot<V>> for Turns<V> {
    ghost use Rattle.pl_turn.specs.Rule.{Kept, starting};

    ghost holds = { λ _. Kept V.entries };

    ghost first = { λ key. starting (V.entries key.value) };
}

/// The fetch-and-add on the ticket word.
pub struct Draw;

impl<V, I> Play<Option<V>, Known<I>> for Draw {
    ghost use Rattle.pl_turn.specs.Steps.{Draws};

    ghost then = { Draws };
}

/// The load of the serving word.
pub struct Serve<V> {
    value: PhantomData<V>,
}

impl<V: Logged> Play<Option<V>, Known<V::Item>> for Serve<V> {
    ghost use Rattle.pl_turn.specs.Steps.{Serves};

    ghost then = { Serves V.entries };
}

/// The load of the history word by a pass in its turn.
pub struct Measure;

impl<V, I> Play<Option<V>, Known<I>> for Measure {
    ghost use Rattle.pl_turn.specs.Steps.{Measures};

    ghost then = { Measures };
}

/// The fetch-and-add on the history word.
pub struct Add<V> {
    value: PhantomData<V>,
}

impl<V: Logged> Play<Option<V>, Known<V::Item>> for Add<V> {
    ghost use Rattle.pl_turn.specs.Steps.{Adds};

    ghost then = { Adds V.entries };
}

/// The fetch-and-add on the serving word.
pub struct End;

impl<V, I> Play<Option<V>, Known<I>> for End {
    ghost use Rattle.pl_turn.specs.Steps.{Ends};

    ghost then = { Ends };
}

/// How a pass is split off.
pub struct Cut;

impl<I> Split<Known<I>> for Cut {
    ghost use Rattle.pl_turn.specs.Steps.{splitting, newcomer};

    ghost left = { splitting };

    ghost right = { newcomer };
}

/// How a pass is joined.
pub struct Take;

impl<I> Join<Known<I>> for Take {
    ghost use Rattle.pl_turn.specs.Rule.{gone};
    ghost use Rattle.pl_turn.specs.Steps.{taking};

    ghost both = { taking };

    ghost spent = { gone };
}

/// The load of the history word by a pass that joined another.
pub struct Learn;

impl<V, I> Play<Option<V>, Known<I>> for Learn {
    ghost use Rattle.pl_turn.specs.Steps.{Learns};

    ghost then = { Learns };
}

/// The load of the history word.
pub struct Count;

impl<V, I> Play<Option<V>, Known<I>> for Count {
    ghost use Rattle.pl_turn.specs.Steps.{Counts};

    ghost then = { Counts };
}

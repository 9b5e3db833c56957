ghost use Rattle.std.specs.Prelude.{◌≡◌, [], OnOk, OnErr, IfOk, Some, slice_get, find, nat_lt};
ghost use Rattle.std.specs.List.Sorted.{IsStrictlyIncreasing};
ghost use Rattle.pl_plan.specs.Index.{ids_under, Enters, Leaves};

use std::alloc::{AllocError, Global};
use std::collections::BTreeSet;
use std::marker::Model;
use std::ops::Bound;

/// Ids under numbers, which contracts see as pairs by rising number, then id.
#[derive(Drop)]
pub(crate) struct Index {
    pairs: BTreeSet<(u32, u32)>,
}

impl Model for Index {
    ghost use Rattle.std.specs.Prelude.{ℕ, List, All, ◌<◌, ◌^◌};

    ghost Value = { List (ℕ × ℕ) };

    ghost view = { λ i. i.pairs.keys };

    ghost invariant = { λ i. All (λ p. p.1 < 2 ^ 32) i.pairs.keys };
}

impl Index {
    pub(crate) fn new(alloc: Global) -> Index
        ensures { result ≡ [] }
    {
        Index {
            pairs: BTreeSet::new(alloc),
        }
    }

    pub(crate) fn insert(&mut self, number: u32, id: u32) -> Result<(), AllocError>
        ensures ok { OnOk result (Enters (Some number) id self.old self.new) }
        ensures err { OnErr result (self.new ≡ self.old) }
    {
        self.pairs.insert((number, id))?;
        Ok(())
    }

    pub(crate) fn remove(&mut self, number: u32, id: u32)
        ensures { Leaves (Some number) id self.old self.new }
    {
        self.pairs.remove(&(number, id));
    }

    pub(crate) fn under(&self, alloc: Global, number: u32) -> Result<Vec<u32>, AllocError>
        ensures ids { IfOk result (λ ids. ids.items ≡ ids_under number self.now) }
        ensures rising { IsStrictlyIncreasing (ids_under number self.now) }
    {
        self.pairs
            .range((number, 0)..=(number, u32::MAX))
            .map(|pair| pair.1)
            .collect(alloc)
    }

    pub(crate) fn first_under(&self, number: u32) -> Option<u32>
        ensures first { result ≡ slice_get (ids_under number self.now) 0 }
        ensures rising { IsStrictlyIncreasing (ids_under number self.now) }
    {
        let pair = self.pairs.range((number, 0)..=(number, u32::MAX)).next()?;
        Some(pair.1)
    }

    pub(crate) fn next_under(&self, number: u32, behind: u32) -> Option<u32>
        ensures next { result ≡ find (nat_lt behind) (ids_under number self.now) }
        ensures rising { IsStrictlyIncreasing (ids_under number self.now) }
    {
        let from = Bound::Excluded((number, behind));
        let to = Bound::Included((number, u32::MAX));
        let pair = self.pairs.range((from, to)).next()?;
        Some(pair.1)
    }
}

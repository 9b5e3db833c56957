ghost use Rattle.std.specs.Prelude.{◌≡◌, ◌<◌, ◌≤◌, ◌++◌, ◌∷◌, [], suc, length, take, drop, OnOk, OnErr, IfOk};
ghost use Rattle.pl_lists.specs.Lists.{front, back};
ghost use Rattle.pl_state.specs.Keys.{AreSorted};
ghost use Rattle.pl_state.specs.Rows.{is_covered, last_passes};

use crate::bound::Bound;
use crate::key::Keyed;
use std::alloc::{AllocError, Global};
use std::marker::Model;

/// A part of a list.
#[derive(Drop)]
pub(crate) struct Row<T> {
    items: Vec<T>,
}

impl<T> Model for Row<T> {
    ghost use Rattle.std.specs.Prelude.{List};

    ghost Value = { List T };

    ghost view = { λ r. r.items.items };
}

impl<T: Keyed> Row<T> {
    /// Without items, before the first one comes.
    pub(crate) fn new(alloc: Global) -> Row<T>
        ensures { result ≡ [] }
    {
        Row {
            items: Vec::new(alloc),
        }
    }

    pub(crate) fn from_slice(alloc: Global, items: &[T]) -> Result<Row<T>, AllocError>
        ensures { IfOk result (λ r. r ≡ items.now) }
    {
        Ok(Row {
            items: Vec::from_slice(alloc, items)?,
        })
    }

    pub(crate) fn as_slice(&self) -> &[T]
        ensures { result.now ≡ self.now }
    {
        &self.items
    }

    pub(crate) fn len(&self) -> usize
        ensures { result ≡ length self.now }
    {
        self.items.len()
    }

    pub(crate) fn insert(&mut self, at: usize, item: T) -> Result<(), AllocError>
        requires { at ≤ length self.old }
        ensures ok { OnOk result (self.new ≡ take at self.old ++ item ∷ drop at self.old) }
        ensures err { OnErr result (self.new ≡ self.old) }
    {
        self.items.insert(at, item)?;
        Ok(())
    }

    pub(crate) fn remove(&mut self, at: usize)
        requires { at < length self.old }
        ensures { self.new ≡ take at self.old ++ drop (suc at) self.old }
    {
        self.items.remove(at);
    }

    /// Keeps the first so many items, and no more memory than they take.
    pub(crate) fn truncate(&mut self, count: usize)
        ensures { self.new ≡ take count self.old }
    {
        self.items.truncate(count);
        self.items.shrink_to_fit();
    }

    /// Whether the last item lies within the bound.
    pub(crate) fn is_covered(&self, bound: Bound) -> bool
        ensures { result ≡ last_passes (is_covered T.key bound) self.now }
    {
        match self.items.last() {
            Some(item) => bound.covers(item.key()),
            None => true,
        }
    }

    /// How many items lie within the bound.
    pub(crate) fn count(&self, bound: Bound) -> usize
        requires { AreSorted T.key self.now }
        ensures bound { result ≤ length self.now }
        ensures front { take result self.now ≡ front (is_covered T.key bound) self.now }
        ensures rest { drop result self.now ≡ back (is_covered T.key bound) self.now }
    {
        self.items.partition_point(|item| bound.covers(item.key()))
    }
}

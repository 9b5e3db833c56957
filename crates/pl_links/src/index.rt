ghost use Rattle.std.specs.Prelude.{◌≡◌, ℕ, ◌≤◌, [], ◌&&◌, ◌++◌, true, false, map, filter};
ghost use Rattle.std.specs.Prelude.{Some, OnOk, OnErr, IfNone, IfSome};
ghost use Rattle.std.specs.List.{list_any};
ghost use Rattle.std.specs.Map.Iter.{ShowsInOrder, deref};
ghost use Rattle.pl_links.specs.declared.keys.Key.{Key};
ghost use Rattle.pl_links.specs.Keys.{has_key, key_at, lies, lies_in, is_other, link_at};
ghost use Rattle.pl_links.specs.Keys.{Adds, Drops, AreShort};

use crate::broken::Broken;
use crate::keys::Key;
use pl_lists::Copied;
use std::alloc::{AllocError, Global};
use std::collections::BTreeSet;
use std::collections::btree_set::Range;

/// An index of activities, which contracts see as its keys in order.
#[derive(Drop)]
pub(crate) struct Index {
    keys: BTreeSet<Key>,
}

impl std::marker::Model for Index {
    ghost use Rattle.std.specs.Prelude.{List};
    ghost use Rattle.pl_links.specs.declared.keys.Key.{Key};
    ghost use Rattle.pl_links.specs.Keys.{AreShort};

    ghost Value = { List Key };

    ghost view = { λ i. i.keys.keys };

    ghost invariant = { λ i. AreShort i.keys.keys };
}

impl Index {
    /// No activity is filed.
    pub fn new(alloc: Global) -> Index
        ensures { result ≡ [] }
    {
        Index {
            keys: BTreeSet::new(alloc),
        }
    }

    /// Files an activity under its place, if it has one: a group, and a number there.
    pub fn insert(&mut self, place: Option<(u32, u32)>, id: u32) -> Result<(), AllocError>
        ensures ok { OnOk result (Adds place id self.old self.new) }
        ensures err { OnErr result (self.new ≡ self.old) }
    {
        match place {
            Some(place) => self.insert_key(place.0, place.1, id),
            None => Ok(()),
        }
    }

    fn insert_key(&mut self, group: u32, number: u32, id: u32) -> Result<(), AllocError>
        ensures ok { OnOk result (Adds (Some (group, number)) id self.old self.new) }
        ensures err { OnErr result (self.new ≡ self.old) }
    {
        self.keys.insert(Key { group, number, id })?;
        Ok(())
    }

    /// Takes the activity of this id out, which is filed under this place.
    pub fn remove(&mut self, place: Option<(u32, u32)>, id: u32)
        ensures { Drops place id self.old self.new }
    {
        match place {
            Some(place) => self.remove_key(place.0, place.1, id),
            None => {}
        }
    }

    fn remove_key(&mut self, group: u32, number: u32, id: u32)
        ensures { Drops (Some (group, number)) id self.old self.new }
    {
        self.keys.remove(&Key { group, number, id });
    }

    /// The keys of a group from one number to another.
    pub fn within(&self, group: u32, from: u32, to: u32) -> Range<'_, Key>
        requires { from ≤ to }
        ensures between { result ≡ filter (lies group from to) self.now }
        ensures runs { ShowsInOrder (deref {X = Key}) }
    {
        let low = Key {
            group,
            number: from,
            id: 0,
        };
        let high = Key {
            group,
            number: to,
            id: u32::MAX,
        };
        self.keys.range(low..=high)
    }

    /// Whether the group has another activity in the window, but for one that is gone.
    pub fn has_other(
        &self,
        group: u32,
        window: Option<(u32, u32)>,
        own: u32,
        gone: Option<u32>,
    ) -> bool
        requires { IfSome window (λ w. w.0 ≤ w.1) }
        ensures other { result
            ≡ list_any (λ k. lies_in group window k && is_other own gone k.id) self.now }
        ensures short { AreShort self.now }
    {
        let _ = &self.keys;
        match window {
            Some(window) => self.has_other_within(group, window.0, window.1, own, gone),
            None => false,
        }
    }

    #[tactic(auto, using(crate::proofs::Anys::any_filter))]
    fn has_other_within(&self, group: u32, from: u32, to: u32, own: u32, gone: Option<u32>) -> bool
        requires { from ≤ to }
        ensures { result ≡ list_any (λ k. lies group from to k && is_other own gone k.id) self.now }
    {
        for key in self.within(group, from, to) {
            if is_other(own, gone, key.id) {
                return true;
            }
        }
        false
    }

    /// Adds the link of this index of each activity of the group in the window.
    pub fn add_links(
        &self,
        near: &mut Vec<Broken>,
        group: u32,
        window: Option<(u32, u32)>,
        index: u32,
    ) -> Result<(), AllocError>
        requires { IfSome window (λ w. w.0 ≤ w.1) }
        ensures ok { OnOk result (near.new.items ≡ near.old.items
            ++ map (link_at index) (filter (lies_in group window) self.now)) }
        ensures short { AreShort self.now }
    {
        let _ = &self.keys;
        match window {
            Some(window) => {
                self.add_links_within(near, group, window.0, window.1, index)?;
                Ok(())
            }
            None => Ok(()),
        }
    }

    fn add_links_within(
        &self,
        near: &mut Vec<Broken>,
        group: u32,
        from: u32,
        to: u32,
        index: u32,
    ) -> Result<(), AllocError>
        requires { from ≤ to }
        ensures { OnOk result (near.new.items ≡ near.old.items
            ++ map (link_at index) (filter (lies group from to) self.now)) }
    {
        for key in self.within(group, from, to) {
            near.push(Broken {
                id: key.id,
                index,
                slots: false,
            })?;
        }
        Ok(())
    }

    /// An activity of the group at this number.
    pub fn first(&self, group: u32, number: u32) -> Option<u32>
        ensures none { IfNone result ((id : ℕ) →
            has_key (key_at group number id) self.now ≡ false) }
        ensures some { IfSome result (λ id. has_key (key_at group number id) self.now ≡ true) }
    {
        match self.within(group, number, number).next() {
            Some(key) => Some(key.id),
            None => None,
        }
    }
}

impl Copied for Index {
    fn copy(&self, _alloc: Global) -> Result<Index, AllocError> {
        Ok(Index {
            keys: self.keys.clone()?,
        })
    }
}

pub(crate) fn is_other(own: u32, gone: Option<u32>, id: u32) -> bool
    ensures { result ≡ is_other own gone id }
{
    match gone {
        None => id != own,
        Some(gone) => id != own && id != gone,
    }
}

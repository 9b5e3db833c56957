ghost use Rattle.std.specs.Prelude.{◌≡◌, ◌+◌, [], OnOk, OnErr, IfOk, IfErr, filter};
ghost use Rattle.std.specs.List.{list_any};
ghost use Rattle.std.specs.Map.Iter.{ShowsInOrder, deref};
ghost use Rattle.pl_links.specs.declared.broken.Broken.{Broken};
ghost use Rattle.pl_links.specs.Items.{AreRising, AreApart, IsPlaced, CanBePlaced};
ghost use Rattle.pl_links.specs.Items.{with_item, without, item_of};
ghost use Rattle.pl_links.specs.Broken.{broken_of, is_partner};
ghost use Rattle.pl_links.specs.Kept.{IsFor, kept_of};
ghost use Rattle.pl_links.specs.Sets.{has, is_of, first_of};
ghost use Rattle.pl_links.specs.Changes.{Tells};

use crate::broken::Broken;
use crate::changes::Changes;
use crate::mending::mend;
use crate::placed::Placed;
use crate::store::Store;
use pl_lists::Copied;
use pl_model::{Link, Model};
use std::alloc::{AllocError, Global};
use std::collections::BTreeSet;
use std::collections::btree_set::Range;

/// The placed activities, which contracts see by rising id, and the list of what they break.
#[derive(Drop)]
pub struct Links {
    alloc: Global,
    store: Store,
    broken: BTreeSet<Broken>,
}

impl std::marker::Model for Links {
    ghost use Rattle.pl_links.specs.Kept.{Kept, IsSound};

    ghost Value = { Kept };

    ghost view = { λ l. record { items = l.store; broken = l.broken.keys } };

    ghost invariant = { λ l. IsSound (record { items = l.store; broken = l.broken.keys }) };
}

impl Links {
    /// No activity is placed, and no link or order is broken.
    pub fn new(alloc: Global) -> Links
        ensures items { result.items ≡ [] }
        ensures broken { result.broken ≡ [] }
    {
        Links {
            alloc,
            store: Store::new(alloc),
            broken: BTreeSet::new(alloc),
        }
    }

    /// Places an activity. All calls on one store are given the same model.
    pub fn place(&mut self, model: &Model, item: &Placed) -> Result<(), AllocError>
        requires model { IsFor model.now self.old }
        requires free { CanBePlaced model.now self.old.items item.now }
        ensures ok { OnOk result
            (self.new ≡ kept_of model.now (with_item item.now self.old.items)) }
        ensures err { OnErr result (self.new ≡ self.old) }
    {
        self.place_telling(model, item)?;
        Ok(())
    }

    /// Places an activity, and tells what came to the list of what is broken and what went.
    pub fn place_telling(&mut self, model: &Model, item: &Placed) -> Result<Changes, AllocError>
        requires model { IsFor model.now self.old }
        requires free { CanBePlaced model.now self.old.items item.now }
        ensures ok { OnOk result
            (self.new ≡ kept_of model.now (with_item item.now self.old.items)) }
        ensures changes { IfOk result (Tells self.old.broken self.new.broken) }
        ensures err { OnErr result (self.new ≡ self.old) }
    {
        self.store.place(self.alloc, model, item)?;
        match mend(self.alloc, model, &self.store, None, item, &mut self.broken) {
            Ok(changes) => Ok(changes),
            Err(e) => {
                self.store.take(item.id);
                Err(e)
            }
        }
    }

    /// Takes the activity of this id out.
    pub fn take(&mut self, model: &Model, id: u32) -> Result<(), AllocError>
        requires model { IsFor model.now self.old }
        requires placed { IsPlaced id self.old.items }
        ensures ok { OnOk result (self.new ≡ kept_of model.now (without id self.old.items)) }
        ensures err { OnErr result (self.new ≡ self.old) }
    {
        self.take_telling(model, id)?;
        Ok(())
    }

    /// Takes the activity of this id out, if one is placed, and tells what came to the list of what
    /// is broken and what went.
    pub fn take_telling(&mut self, model: &Model, id: u32) -> Result<Changes, AllocError>
        requires { IsFor model.now self.old }
        ensures ok { OnOk result (self.new ≡ kept_of model.now (without id self.old.items)) }
        ensures changes { IfOk result (Tells self.old.broken self.new.broken) }
        ensures err { OnErr result (self.new ≡ self.old) }
    {
        match self.store.item(id) {
            Some(item) => {
                let changes = mend(
                    self.alloc,
                    model,
                    &self.store,
                    Some(id),
                    &item,
                    &mut self.broken,
                )?;
                self.store.take(id);
                Ok(changes)
            }
            None => Ok(Changes::none(self.alloc)),
        }
    }

    /// Every link without a partner and every order of slots that is not met, by id and index, a
    /// link before an order.
    pub fn broken(&self, alloc: Global, model: &Model) -> Result<Vec<Broken>, AllocError>
        requires { IsFor model.now self.now }
        ensures broken { IfOk result (λ all. all.items ≡ broken_of model.now self.now.items) }
        ensures rising { AreRising self.now.items }
        ensures apart { AreApart self.now.items }
    {
        let _ = &self.store;
        self.broken.iter().copied().collect(alloc)
    }

    /// The placed activity of this id.
    pub fn item(&self, id: u32) -> Option<Placed>
        ensures { result ≡ item_of id self.now.items }
    {
        self.store.item(id)
    }

    /// Whether an activity, which need not be placed, has a partner for its link among the placed
    /// ones. For a link of the model with which the first was placed they are not walked through.
    pub fn has_partner(&self, own: &Placed, link: &Link) -> bool
        ensures { result ≡ list_any (is_partner link.now own.now) self.now.items }
    {
        self.store.has_partner(None, own, link)
    }

    /// Whether a link has no partner, or an order is not met.
    pub fn is_broken(&self, broken: &Broken) -> bool
        ensures { result ≡ has broken.now self.now.broken }
    {
        self.broken.contains(broken)
    }

    /// What the activity of this id breaks, by index.
    pub fn broken_by(&self, alloc: Global, id: u32) -> Result<Vec<Broken>, AllocError>
        ensures { IfOk result (λ all. all.items ≡ filter (is_of id) self.now.broken) }
    {
        match id.checked_add(1) {
            Some(next) => self.between(id, next).copied().collect(alloc),
            None => self
                .broken
                .iter()
                .filter(|broken| broken.id == id)
                .copied()
                .collect(alloc),
        }
    }

    fn between(&self, id: u32, next: u32) -> Range<'_, Broken>
        requires { next ≡ id + 1 }
        ensures between { result ≡ filter (is_of id) self.now.broken }
        ensures runs { ShowsInOrder (deref {X = Broken}) }
    {
        self.broken.range(first_of(id)..first_of(next))
    }
}

// The first link of an activity.
fn first_of(id: u32) -> Broken
    ensures { result ≡ first_of id }
{
    Broken {
        id,
        index: 0,
        slots: false,
    }
}

impl Copied for Links {
    fn copy(&self, alloc: Global) -> Result<Links, AllocError> {
        Ok(Links {
            alloc,
            store: self.store.copy(alloc)?,
            broken: self.broken.clone()?,
        })
    }
}

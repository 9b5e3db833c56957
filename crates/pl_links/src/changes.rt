//! What comes to the list of what is broken, and what goes.
ghost use Rattle.std.specs.Prelude.{◌≡◌, [], ◌++◌, ◌&&◌, not, filter, OnOk, IfOk};
ghost use Rattle.pl_links.specs.Broken.{when};
ghost use Rattle.pl_links.specs.Filed.{left};
ghost use Rattle.pl_links.specs.Sets.{has};
ghost use Rattle.pl_links.specs.Standing.{stands};

use crate::broken::Broken;
use crate::standing::stands;
use crate::store::Store;
use pl_model::Model;
use std::alloc::{AllocError, Global};
use std::collections::BTreeSet;

/// What came to the list of what is broken, and what went, each once and in order.
#[derive(Drop)]
pub struct Changes {
    pub came: Vec<Broken>,
    pub went: Vec<Broken>,
}

impl Changes {
    /// Nothing came, and nothing went.
    pub(crate) fn none(alloc: Global) -> Changes
        ensures came { result.came.items ≡ [] }
        ensures went { result.went.items ≡ [] }
    {
        Changes {
            came: Vec::new(alloc),
            went: Vec::new(alloc),
        }
    }

    fn add(&mut self, broken: Broken, is_broken: bool, is_listed: bool) -> Result<(), AllocError>
        ensures came { OnOk result (self.new.came.items ≡ self.old.came.items
            ++ when (is_broken && not is_listed) broken) }
        ensures went { OnOk result (self.new.went.items ≡ self.old.went.items
            ++ when (not is_broken && is_listed) broken) }
    {
        if is_broken && !is_listed {
            self.came.push(broken)?;
            return Ok(());
        }
        if !is_broken && is_listed {
            self.went.push(broken)?;
            return Ok(());
        }
        Ok(())
    }
}

/// What of these is broken and not listed, and what is listed and not broken, where one activity
/// may be gone.
pub(crate) fn changes_near(
    alloc: Global,
    model: &Model,
    store: &Store,
    gone: Option<u32>,
    near: &[Broken],
    listed: &BTreeSet<Broken>,
) -> Result<Changes, AllocError>
    ensures came { IfOk result (λ c. c.came.items
        ≡ filter (λ b. stands model.now (left gone store.now) b && not (has b listed.now.keys))
        near.now) }
    ensures went { IfOk result (λ c. c.went.items
        ≡ filter (λ b. not (stands model.now (left gone store.now) b) && has b listed.now.keys)
        near.now) }
{
    let mut changes = Changes::none(alloc);
    for broken in near {
        let is_broken = stands(model, store, gone, broken);
        let is_listed = listed.contains(broken);
        changes.add(*broken, is_broken, is_listed)?;
    }
    Ok(changes)
}

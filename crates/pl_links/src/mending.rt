//! The list of what is broken is mended where an activity came or goes.
ghost use Rattle.std.specs.Prelude.{◌≡◌, Some, IfOk, IfSome, OnOk, OnErr};
ghost use Rattle.pl_links.specs.Changes.{Tells};
ghost use Rattle.std.specs.List.Sorted.{IsStrictlySortedBy};
ghost use Rattle.pl_links.specs.declared.broken.Broken.{Broken};
ghost use Rattle.pl_links.specs.Items.{item_of};
ghost use Rattle.pl_links.specs.Filed.{left};
ghost use Rattle.pl_links.specs.Kept.{before};
ghost use Rattle.pl_links.specs.Sets.{broken_cmp, has};
ghost use Rattle.pl_links.specs.Standing.{stands};

use crate::broken::Broken;
use crate::changes::{Changes, changes_near};
use crate::exchange::{insert_all, remove_all};
use crate::placed::Placed;
use crate::store::Store;
use pl_model::Model;
use std::alloc::{AllocError, Global};
use std::collections::BTreeSet;

/// Mends the list where this activity came; or, where it is named as gone, before it is taken out.
/// Tells what came to the list and what went.
pub(crate) fn mend(
    alloc: Global,
    model: &Model,
    store: &Store,
    gone: Option<u32>,
    item: &Placed,
    listed: &mut BTreeSet<Broken>,
) -> Result<Changes, AllocError>
    requires placed { item_of item.now.id store.now ≡ Some item.now }
    requires gone { IfSome gone (λ id. id ≡ item.now.id) }
    requires ordered { IsStrictlySortedBy broken_cmp listed.old.keys }
    requires listed { (b : Broken) →
        has b listed.old.keys ≡ stands model.now (before gone item.now.id store.now) b }
    ensures ok { OnOk result ((b : Broken) →
        has b listed.new.keys ≡ stands model.now (left gone store.now) b) }
    ensures changes { IfOk result (Tells listed.old.keys listed.new.keys) }
    ensures err { OnErr result (listed.new.keys ≡ listed.old.keys) }
    ensures rising { IsStrictlySortedBy broken_cmp listed.new.keys }
{
    let near = store.near(alloc, model, item)?;
    let changes = changes_near(alloc, model, store, gone, near.as_slice(), listed)?;
    insert_all(listed, changes.came.as_slice())?;
    remove_all(listed, changes.went.as_slice());
    Ok(changes)
}

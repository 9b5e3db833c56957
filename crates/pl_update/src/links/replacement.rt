//! A plan, what its activities come to, and its store go on together.
ghost use Rattle.std.specs.Prelude.{◌≡◌, ◌++◌, false, OnOk, OnErr, IfOk, filter};
ghost use Rattle.std.specs.List.{flat_map};
ghost use Rattle.pl_detect.specs.Broken.{broken_conflict};
ghost use Rattle.pl_links.specs.declared.broken.Broken.{Broken};
ghost use Rattle.pl_links.specs.Kept.{kept_of};
ghost use Rattle.pl_links.specs.Sets.{has};
ghost use Rattle.pl_semantics.specs.Links.{placed_in};
ghost use Rattle.pl_semantics.specs.Whole.{IsWhole};
ghost use Rattle.pl_update.specs.Changes.Replaced.{CanReplace, with_plan};
ghost use Rattle.pl_update.specs.Evaluations.Kept.{AreOf};
ghost use Rattle.pl_update.specs.Links.Mended.{MendsLinks};
ghost use Rattle.pl_update.specs.Links.Near.{broken_near};

use crate::evaluations::Evaluations;
use crate::links::breaking::{broken_near, conflicts_of, standing};
use crate::links::mended::Mended;
use crate::links::near::near;
use crate::links::placing::place_all;
use crate::links::taking::take_all;
use pl_conflict::Conflict;
use pl_detect::add_all_broken;
use pl_links::{Broken, Links};
use pl_plan::Activity;
use pl_semantics::PlanState;
use std::alloc::{AllocError, Global};

// Tells what may be broken or mended by it.
fn replace_placed(
    alloc: Global,
    s: &mut PlanState,
    values: &mut Evaluations,
    links: &mut Links,
    gone: &[u32],
    placed: &[Activity],
) -> Result<Vec<Broken>, AllocError>
    requires whole { IsWhole s.old }
    requires can { CanReplace s.old gone.now placed.now }
    requires values { AreOf s.old values.old }
    requires kept { links.old ≡ kept_of s.old.model (placed_in s.old) }
    ensures ok { OnOk result (s.new ≡ with_plan gone.now placed.now s.old) }
    ensures whole { OnOk result (IsWhole s.new) }
    ensures values { OnOk result (AreOf s.new values.new) }
    ensures kept { OnOk result (links.new ≡ kept_of s.new.model (placed_in s.new)) }
    ensures told { IfOk result (λ told. (b : Broken) → has b told.items ≡ false → has b links.new.broken ≡ has b links.old.broken) }
    ensures err { OnErr result (s.new ≡ record s.old { plan = s.new.plan; next_id = s.new.next_id }) }
{
    let mut told = Vec::new(alloc);
    take_all(s.model.get(), links, gone, &mut told)?;
    crate::evaluations::replace(alloc, s, values, gone, placed)?;
    place_all(s, values, links, placed, &mut told)?;
    Ok(told)
}

// The conflicts of what is broken near the replacement, or was told and is broken.
fn coming(
    alloc: Global,
    s: &PlanState,
    links: &Links,
    ids: &[u32],
    told: &[Broken],
) -> Result<Vec<Conflict>, AllocError>
    requires { IsWhole s.now }
    ensures { IfOk result (λ all. all.items ≡ flat_map (broken_conflict s.now) (broken_near links.now.broken ids.now ++ filter (λ b. has b links.now.broken) told.now)) }
{
    let mut all = broken_near(alloc, links, ids)?;
    let standing = standing(alloc, links, told)?;
    all.extend_from_slice(standing.as_slice())?;
    conflicts_of(alloc, s, all.as_slice())
}

/// Takes the activities of `gone` out of a plan and its store, puts those of `placed` in, keeps what they come to, and answers
/// which conflicts of links and orders went and came. After want of memory all three may be changed in part.
pub fn replace(
    alloc: Global,
    s: &mut PlanState,
    values: &mut Evaluations,
    links: &mut Links,
    gone: &[u32],
    placed: &[Activity],
) -> Result<Mended, AllocError>
    requires whole { IsWhole s.old }
    requires can { CanReplace s.old gone.now placed.now }
    requires values { AreOf s.old values.old }
    requires kept { links.old ≡ kept_of s.old.model (placed_in s.old) }
    ensures ok { OnOk result (s.new ≡ with_plan gone.now placed.now s.old) }
    ensures values { OnOk result (AreOf s.new values.new) }
    ensures kept { OnOk result (links.new ≡ kept_of s.new.model (placed_in s.new)) }
    ensures mended { IfOk result (λ m. MendsLinks s.old s.new m.went.items m.came.items) }
    ensures err { OnErr result (s.new ≡ record s.old { plan = s.new.plan; next_id = s.new.next_id }) }
{
    let ids = near(alloc, s, gone, placed)?;
    let before = broken_near(alloc, links, ids.as_slice())?;
    let mut went = conflicts_of(alloc, s, before.as_slice())?;
    let told = replace_placed(alloc, s, values, links, gone, placed)?;
    add_all_broken(alloc, s, told.as_slice(), &mut went)?;
    let came = coming(alloc, s, links, ids.as_slice(), told.as_slice())?;
    Ok(Mended { went, came })
}

//! What is broken near a replacement.
ghost use Rattle.std.specs.Prelude.{◌≡◌, IfOk, filter};
ghost use Rattle.std.specs.List.{flat_map};
ghost use Rattle.pl_links.specs.Sets.{has};
ghost use Rattle.pl_detect.specs.Broken.{broken_conflict};
ghost use Rattle.pl_semantics.specs.Whole.{IsWhole};
ghost use Rattle.pl_update.specs.Links.Near.{broken_near};

use pl_conflict::Conflict;
use pl_detect::add_all_broken;
use pl_links::{Broken, Links};
use pl_semantics::PlanState;
use std::alloc::{AllocError, Global};

/// What is broken of the activities of these ids.
#[tactic(auto, unfolding(crate::specs::Links::Near::broken_near))]
pub(crate) fn broken_near(
    alloc: Global,
    links: &Links,
    ids: &[u32],
) -> Result<Vec<Broken>, AllocError>
    ensures { IfOk result (λ all. all.items ≡ broken_near links.now.broken ids.now) }
{
    let mut all = Vec::new(alloc);
    for id in ids {
        let own = links.broken_by(alloc, *id)?;
        all.extend_from_slice(own.as_slice())?;
    }
    Ok(all)
}

/// Those of them that are broken now.
pub(crate) fn standing(
    alloc: Global,
    links: &Links,
    told: &[Broken],
) -> Result<Vec<Broken>, AllocError>
    ensures { IfOk result (λ all. all.items ≡ filter (λ b. has b links.now.broken) told.now) }
{
    told.iter()
        .filter(|broken| links.is_broken(broken))
        .copied()
        .collect(alloc)
}

/// The conflicts of all that is broken.
pub(crate) fn conflicts_of(
    alloc: Global,
    s: &PlanState,
    broken: &[Broken],
) -> Result<Vec<Conflict>, AllocError>
    requires { IsWhole s.now }
    ensures { IfOk result (λ all. all.items ≡ flat_map (broken_conflict s.now) broken.now) }
{
    let mut all = Vec::new(alloc);
    add_all_broken(alloc, s, broken, &mut all)?;
    Ok(all)
}

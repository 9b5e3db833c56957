//! The activities of a plan with their ends.
ghost use Rattle.std.specs.Prelude.{◌≡◌, IfOk, filter};
ghost use Rattle.pl_semantics.specs.Whole.{IsWhole};
ghost use Rattle.pl_semantics.specs.Links.{placed_in};
ghost use Rattle.pl_flex.specs.FlexNets.{is_firm};

use pl_detect::placed_of;
use pl_links::Placed;
use pl_semantics::PlanState;
use std::alloc::{AllocError, Global};

pub fn placed_in(alloc: Global, s: &PlanState) -> Result<Vec<Placed>, AllocError>
    requires { IsWhole s.now }
    ensures { IfOk result (λ v. v.items ≡ placed_in s.now) }
{
    let mut all = Vec::new(alloc);
    let activities = s.plan.activities();
    for activity in activities {
        all.push(placed_of(s, activity))?;
    }
    Ok(all)
}

/// Those that are firm.
pub fn firm_among(alloc: Global, placed: &[Placed]) -> Result<Vec<Placed>, AllocError>
    ensures { IfOk result (λ v. v.items ≡ filter is_firm placed.now) }
{
    let mut all = Vec::new(alloc);
    for item in placed {
        if item.end.is_some() {
            all.push(*item)?;
        }
    }
    Ok(all)
}

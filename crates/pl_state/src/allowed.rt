//! Which sets take a step that is not allowed.
ghost use Rattle.std.specs.Prelude.{◌≡◌, IfOk};
ghost use Rattle.pl_state.specs.Sets.{is_listed, is_allowed, bad_from};

use crate::answer::BadSet;
use crate::reservation::Setting;
use pl_points::Span;
use std::alloc::{AllocError, Global};

// Whether the step is one of the steps.
fn is_listed(steps: &[(u32, u32)], from: u32, to: u32) -> bool
    ensures { result ≡ is_listed steps.now from to }
{
    for step in steps {
        if step.0 == from && step.1 == to {
            return true;
        }
    }
    false
}

// Whether the state may go from one to the other.
fn is_allowed(any: bool, steps: &[(u32, u32)], from: u32, to: u32) -> bool
    ensures { result ≡ is_allowed any steps.now from to }
{
    any || from == to || is_listed(steps, from, to)
}

// The sets whose step is not allowed.
pub(crate) fn bad_of(
    alloc: Global,
    any: bool,
    steps: &[(u32, u32)],
    counted: Span,
    moment: u32,
    value: u32,
    sets: &[Setting],
) -> Result<Vec<BadSet>, AllocError>
    ensures { IfOk result (λ v. v.items ≡ bad_from
        (is_allowed any steps.now) counted.from counted.to moment value sets.now) }
{
    let mut bad = Vec::new(alloc);
    let mut state = value;
    for set in sets {
        let counts = counted.from < set.at && set.at < counted.to;
        if counts && (moment <= set.at && !is_allowed(any, steps, state, set.state)) {
            bad.push(BadSet {
                at: set.at,
                id: set.id,
                index: set.index,
            })?;
        }
        state = if counts { set.state } else { state };
    }
    Ok(bad)
}

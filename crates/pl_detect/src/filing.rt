//! Conflicts put at the end of a list.
ghost use Rattle.std.specs.Prelude.{◌≡◌, ◌++◌, OnOk};
ghost use Rattle.std.specs.Option.{option_to_list};
ghost use Rattle.pl_semantics.specs.PlanStates.{when};
ghost use Rattle.pl_semantics.specs.Activities.{at_start};

use pl_conflict::{Code, Conflict};
use pl_plan::Activity;
use std::alloc::AllocError;

/// Puts the conflict at the end, if there is one.
pub(crate) fn add(out: &mut Vec<Conflict>, conflict: Option<Conflict>) -> Result<(), AllocError>
    ensures { OnOk result (out.new.items ≡ out.old.items ++ option_to_list conflict) }
{
    match conflict {
        Some(conflict) => Ok(out.push(conflict)?),
        None => Ok(()),
    }
}

/// Puts the conflict at the end, where the test holds.
pub(crate) fn add_when(
    out: &mut Vec<Conflict>,
    holds: bool,
    conflict: Conflict,
) -> Result<(), AllocError>
    ensures { OnOk result (out.new.items ≡ out.old.items ++ when holds conflict) }
{
    if holds {
        out.push(conflict)?;
    }
    Ok(())
}

/// A conflict at the start of an activity, with two numbers more.
pub(crate) fn at_start(a: &Activity, code: Code, detail: u32, end: u32) -> Conflict
    ensures { result ≡ at_start a.now code detail end }
{
    Conflict {
        from: a.start,
        code,
        subject: a.id,
        detail,
        a: end,
        b: 0,
    }
}

ghost use Rattle.std.specs.Prelude.{◌≡◌, ◌++◌, OnOk, flat_map};
ghost use Rattle.pl_report.specs.Reports.{conflict_line};

use pl_conflict::Conflict;
use pl_journal::push_conflict;
use std::alloc::AllocError;

#[tactic(auto, using(crate::proofs::Texts::line_joined))]
fn push_conflict_line(text: &mut Vec<u8>, conflict: &Conflict) -> Result<(), AllocError>
    ensures { OnOk result (text.new.items ≡ text.old.items ++ conflict_line conflict.now) }
{
    text.extend_from_slice(b"conflict")?;
    push_conflict(text, conflict)?;
    text.push(b'\n')?;
    Ok(())
}

/// Appends a line for each conflict.
pub(crate) fn push_conflicts(text: &mut Vec<u8>, conflicts: &[Conflict]) -> Result<(), AllocError>
    ensures { OnOk result (text.new.items ≡ text.old.items ++ flat_map conflict_line conflicts.now) }
{
    for conflict in conflicts {
        push_conflict_line(text, conflict)?;
    }
    Ok(())
}

//! Conflicts of states that are known to stand, each counted once.
ghost use Rattle.std.specs.Prelude.{◌≡◌, ◌≤◌, false, length, IsTrue, OnOk};
ghost use Rattle.pl_semantics.specs.declared.plan_state.PlanState.{PlanState};
ghost use Rattle.pl_state.specs.Keys.{Has};
ghost use Rattle.pl_bounds.specs.Marks.{AreMarks, Stands, count_of_states};

use std::alloc::AllocError;

/// A conflict of states: whether it is a step that is not allowed or else a state that is needed, of which activity, and the place of the
/// reservation.
#[derive(Clone, Copy)]
pub(crate) struct Mark {
    pub(crate) is_step: bool,
    pub(crate) subject: u32,
    pub(crate) detail: u32,
}

fn is_same(one: &Mark, other: &Mark) -> bool
    ensures { result ≡ false → one.now ≡ other.now → ⊥ }
{
    if one.is_step != other.is_step {
        return false;
    }
    if one.subject != other.subject {
        return false;
    }
    one.detail == other.detail
}

// Whether it is none of these.
fn is_new(marks: &[Mark], mark: Mark) -> bool
    ensures { IsTrue result → Has mark marks.now → ⊥ }
{
    for other in marks {
        if is_same(other, &mark) {
            return false;
        }
    }
    true
}

/// Adds a mark, if it is not there.
pub(crate) fn add_mark(marks: &mut Vec<Mark>, mark: Mark) -> Result<(), AllocError>
    ensures { OnOk result ((s : PlanState) → Stands s mark → AreMarks s marks.old.items → AreMarks s marks.new.items) }
{
    if is_new(marks.as_slice(), mark) {
        marks.push(mark)?;
    }
    Ok(())
}

/// How many they are.
pub(crate) fn count_of_marks(marks: &[Mark]) -> u32
    ensures { (s : PlanState) → AreMarks s marks.now → result ≤ count_of_states s }
{
    marks.len().min(u32::MAX as usize) as u32
}

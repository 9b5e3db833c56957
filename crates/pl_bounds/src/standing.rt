//! What is counted and listed of the conflicts that stand, once for many moves.
ghost use Rattle.std.specs.Prelude.{◌≡◌, ◌≤◌, ◌+◌, false, filter, length, IfOk, if◌then◌else◌};
ghost use Rattle.pl_semantics.specs.Parts.{part_of};
ghost use Rattle.pl_bounds.specs.Plain.{is_plain, is_plain_part};
ghost use Rattle.pl_bounds.specs.Standing.{is_unmoved, is_unmoved_one, is_valueless, is_valueless_one, IsStandingOf};

use crate::link_conflicts::{LinkConflict, listed_links};
use pl_board::Board;
use pl_conflict::{Code, Conflict, ConflictSet};
use std::alloc::{AllocError, Global};

// How many conflicts of goals and of activities there are, how many of them a shift leaves as they are except for their moments, and how
// many depend on no value, so that an assignment leaves them.
#[derive(Clone, Copy)]
struct Counts {
    wrong: u32,
    unmoved: u32,
    valueless: u32,
}

/// These three numbers, and the conflicts of links that stand.
#[derive(Drop)]
pub(crate) struct Standing {
    pub(crate) wrong: u32,
    pub(crate) unmoved: u32,
    pub(crate) valueless: u32,
    pub(crate) links: Vec<LinkConflict>,
}

// Whether a shift leaves as many conflicts of this code.
fn is_unmoved(code: Code) -> bool
    ensures { result ≡ is_unmoved code }
{
    matches!(
        code,
        Code::OpenGoal | Code::Unset | Code::BadValue | Code::Undetailed
    )
}

// Whether an assignment leaves a conflict of this code.
fn is_valueless(code: Code) -> bool
    ensures { result ≡ is_valueless code }
{
    matches!(code, Code::OpenGoal | Code::Undetailed)
}

/// Whether a conflict of this code is of a goal or of an activity.
pub(crate) fn is_plain(code: Code) -> bool
    ensures { result ≡ is_plain_part (part_of code) }
{
    matches!(
        code,
        Code::OpenGoal
            | Code::OffGoal
            | Code::Late
            | Code::Unset
            | Code::BadValue
            | Code::Undetailed
            | Code::Overrun
    )
}

/// One more, if it is one. A count that has reached the end of its type stays as it is.
pub(crate) fn count_if(is_one: bool, count: u32) -> u32
    ensures { result ≤ count + (if is_one then 1 else 0) }
{
    if is_one {
        count.saturating_add(1)
    } else {
        count
    }
}

impl Counts {
    // With one more conflict.
    fn with(self, conflict: &Conflict) -> Counts
        ensures wrong { result.wrong ≤ self.wrong + (if is_plain conflict.now then 1 else 0) }
        ensures unmoved { result.unmoved ≤ self.unmoved + (if is_unmoved conflict.now.code then 1 else 0) }
        ensures valueless { result.valueless ≤ self.valueless + (if is_valueless conflict.now.code then 1 else 0) }
    {
        Counts {
            wrong: count_if(is_plain(conflict.code), self.wrong),
            unmoved: count_if(is_unmoved(conflict.code), self.unmoved),
            valueless: count_if(is_valueless(conflict.code), self.valueless),
        }
    }
}

fn counted(conflicts: &ConflictSet) -> Counts
    ensures wrong { result.wrong ≤ length (filter is_plain conflicts.now) }
    ensures unmoved { result.unmoved ≤ length (filter is_unmoved_one conflicts.now) }
    ensures valueless { result.valueless ≤ length (filter is_valueless_one conflicts.now) }
{
    let mut counts = Counts {
        wrong: 0,
        unmoved: 0,
        valueless: 0,
    };
    for conflict in conflicts.iter() {
        counts = counts.with(conflict);
    }
    counts
}

/// Goes over all conflicts that stand.
pub(crate) fn standing_of(alloc: Global, board: &Board) -> Result<Standing, AllocError>
    requires { board.now.spoiled ≡ false }
    ensures { IfOk result (IsStandingOf board.now.state) }
{
    let counts = counted(board.conflicts());
    let links = listed_links(alloc, board)?;
    Ok(Standing {
        wrong: counts.wrong,
        unmoved: counts.unmoved,
        valueless: counts.valueless,
        links,
    })
}

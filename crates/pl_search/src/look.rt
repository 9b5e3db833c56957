//! What a search sees of a plan.

use pl_board::Board;
use pl_conflict::{Code, Conflict};

/// What is seen of a plan.
#[derive(Clone, Copy)]
pub(crate) struct Look {
    /// How many goals are open.
    pub(crate) unserved: u32,
    /// How many other conflicts stand.
    pub(crate) hard: u32,
    /// What the lengths of the conflicts add to the price.
    pub(crate) lasting: u64,
    /// How many activities are live.
    pub(crate) activities: u32,
    /// The mark of the plan, which depends on its activities but not on their ids.
    pub(crate) mark: u64,
}

/// The most that the length of one conflict adds to the price.
const MOST_LASTING: u64 = 40;

/// The length that adds half of this.
const HALF_LENGTH: u64 = 20;

/// Whether a conflict is an open goal. A search serves goals one by one, so none of these is to be mended.
pub(crate) fn is_open_goal(conflict: &Conflict) -> bool {
    conflict.code == Code::OpenGoal
}

// What a length of so many moments adds to the price: each further moment adds less.
fn count_for(moments: u32) -> u64 {
    let moments = u64::from(moments);
    MOST_LASTING * moments / (moments + HALF_LENGTH)
}

// What the length of a conflict adds to the price. Conflicts of activities and goals have no length.
fn lasting_of(conflict: &Conflict) -> u64 {
    match conflict.code {
        Code::Over | Code::Low | Code::High | Code::Must => {
            count_for(conflict.b.saturating_sub(conflict.a))
        }
        _ => 0,
    }
}

/// Looks at the plan of a board, whose mark is known.
pub(crate) fn look_at(board: &Board, mark: u64) -> Look {
    let mut look = Look {
        unserved: 0,
        hard: 0,
        lasting: 0,
        activities: board.plan().len(),
        mark,
    };
    for conflict in board.conflicts().iter() {
        if is_open_goal(conflict) {
            look.unserved = look.unserved.saturating_add(1);
        } else {
            look.hard = look.hard.saturating_add(1);
            look.lasting = look.lasting.saturating_add(lasting_of(conflict));
        }
    }
    look
}

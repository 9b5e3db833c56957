//! How a chooser knows that a message came since it was asked last.
ghost use Rattle.std.specs.Prelude.{◌≡◌, ◌≤◌, ◌^◌, ◌<◌, Some, false, slice_get};
ghost use Rattle.pl_semantics.specs.Whole.{IsWhole};

use crate::marks::{mark_of_value, mark_then};
use pl_board::Board;
use pl_model::Timeline;
use pl_plan::Activity;
use pl_semantics::PlanState;

/// Parts of a plan state that no repair changes. As long as none of them differs, the message is taken to be the same.
#[derive(Clone, Copy, PartialEq, Eq)]
pub(crate) struct Message {
    moment: u32,
    committed: u32,
    goals: u32,
    told: u64,
    ended: u64,
}

// The mark of when telemetry told a timeline last, and what.
fn mark_of_base(base: (i64, i64)) -> u64 {
    mark_then(mark_of_value(Some(base.0)), mark_of_value(Some(base.1)))
}

// The same of the timeline of this number. Telemetry does not tell capacities.
fn mark_of_timeline(s: &PlanState, line: u32, timeline: &Timeline) -> u64
    requires whole { IsWhole s.now }
    requires line { slice_get s.now.model.timelines line ≡ Some timeline.now }
{
    match timeline {
        Timeline::Capacity { .. } => 0,
        Timeline::Level { .. } => mark_of_base(s.bases.get(line)),
        Timeline::States { .. } => mark_of_base(s.bases.get(line)),
    }
}

fn mark_of_told(s: &PlanState) -> u64
    requires { IsWhole s.now }
{
    let mut mark = 0;
    let timelines = s.model.get().timelines.as_slice();
    for (line, timeline) in timelines.iter().enumerate() {
        mark = mark_then(mark, mark_of_timeline(s, line as u32, timeline));
    }
    mark
}

// The mark of the ends that were measured, in whatever order.
fn mark_of_ends(activities: &[Activity]) -> u64 {
    let mut mark: u64 = 0;
    for activity in activities {
        if let Some(end) = activity.measured {
            mark = mark.wrapping_add(mark_then(u64::from(activity.id), u64::from(end)));
        }
    }
    mark
}

/// These parts of a board's plan state.
pub(crate) fn message_of(board: &Board) -> Message
    requires { board.now.spoiled ≡ false }
{
    Message {
        moment: board.now(),
        committed: board.committed(),
        goals: board.goals().len(),
        told: mark_of_told(board.state()),
        ended: mark_of_ends(board.plan().activities()),
    }
}

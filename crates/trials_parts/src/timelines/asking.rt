//! Changes that are asked of a state timeline.
ghost use Rattle.std.specs.Prelude.{◌≡◌, ◌≤◌, OnOk};

use crate::asserting::holds;
use pl_state::{Must, Setting, StateChange, StateTimeline};
use std::alloc::AllocError;
use std::process::Abort;

/// A set comes or goes, a must comes or goes, or the base has this state.
#[derive(Drop)]
pub(crate) enum Asked {
    Put(Setting),
    Take(Setting),
    Need(Must),
    Free(Must),
    Rebase(u32),
}

fn put(
    rt: &impl Abort,
    timeline: &mut StateTimeline,
    set: Setting,
) -> Result<StateChange, AllocError>
    ensures horizon { OnOk result (timeline.new.horizon ≡ timeline.old.horizon) }
    ensures moment { OnOk result (timeline.new.moment ≡ timeline.old.moment) }
{
    holds(rt, "a moment", 1 <= set.at);
    timeline.put(set.at, set.id, set.index, set.state)
}

/// Asks a state timeline for a change.
pub(crate) fn ask(
    rt: &impl Abort,
    timeline: &mut StateTimeline,
    asked: Asked,
) -> Result<StateChange, AllocError>
    ensures horizon { OnOk result (timeline.new.horizon ≡ timeline.old.horizon) }
    ensures moment { OnOk result (timeline.new.moment ≡ timeline.old.moment) }
{
    match asked {
        Asked::Put(set) => put(rt, timeline, set),
        Asked::Take(set) => timeline.take(set.at, set.id, set.index, set.state),
        Asked::Need(must) => timeline.need(must.from, must.to, must.id, must.index, must.state),
        Asked::Free(must) => timeline.free(must.from, must.to, must.id, must.index, must.state),
        Asked::Rebase(state) => timeline.rebase(state),
    }
}

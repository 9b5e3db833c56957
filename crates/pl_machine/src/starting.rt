//! When an activity starts next, and which activities are settled.
ghost use Rattle.std.specs.Prelude.{◌≡◌, ◌<◌, ◌==◌, length};
ghost use Rattle.pl_plan.specs.Fitting.{kind_of, alternatives_of};
ghost use Rattle.pl_entry.specs.Due.{is_due_since};
ghost use Rattle.pl_machine.specs.Calm.{nearer, is_settled, ahead_after};

use crate::ahead::Ahead;
use crate::change::Change;
use crate::period::Period;
use pl_model::Model;
use pl_plan::Activity;

/// The start, if it lies after the moment and before the next start that is known so far, else that next start.
pub(crate) fn nearer(moment: u32, next: u32, start: u32) -> u32
    ensures { result ≡ nearer moment next start }
{
    if moment < start && start < next {
        start
    } else {
        next
    }
}

/// Whether the activity has started by the end of the period and is committed.
pub(crate) fn is_settled(period: Period, activity: &Activity) -> bool
    ensures { result ≡ is_settled period.moment period.committed activity.now }
{
    activity.start <= period.moment && activity.start < period.committed
}

// Whether the activity's kind has no alternatives.
fn is_basic(model: &Model, activity: &Activity) -> bool
    requires { activity.now.kind < length model.now.kinds }
    ensures { result ≡ (length (alternatives_of (kind_of model.now activity.now)) == 0) }
{
    let kind = &model.kinds.as_slice()[activity.kind as usize];
    kind.alternatives.is_empty()
}

/// Whether the activity has come to be due in the period.
pub(crate) fn is_due_since(model: &Model, period: Period, activity: &Activity) -> bool
    requires { activity.now.kind < length model.now.kinds }
    ensures { result ≡ is_due_since model.now period.before period.moment period.committed activity.now }
{
    period.before < activity.start
        && activity.start < period.committed
        && activity.start <= period.moment
        && is_basic(model, activity)
}

/// What is still known of the starts ahead after a change of the plan.
pub(crate) fn ahead_after(change: &Change, ahead: Ahead) -> Ahead
    ensures { result ≡ ahead_after change.now ahead }
{
    match change {
        Change::Repair(_) => Ahead {
            next_start: 0,
            ..ahead
        },
        _ => ahead,
    }
}

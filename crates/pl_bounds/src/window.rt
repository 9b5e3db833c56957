//! The starts that the goal of a root allows.
ghost use Rattle.std.specs.Prelude.{◌≡◌, IfSome};
ghost use Rattle.pl_bounds.specs.Windows.{is_off, IsWindowOf};

use crate::reopening::goal_of;
use pl_semantics::PlanState;

/// From when, and until when, a root of a goal may start.
#[derive(Clone, Copy)]
pub(crate) struct Window {
    pub(crate) earliest: u32,
    pub(crate) latest: u32,
}

/// The window of the goal that the activity of this id serves, if it serves one.
pub(crate) fn window_of(s: &PlanState, id: u32) -> Option<Window>
    ensures { IfSome result (λ w. IsWindowOf s.now id w) }
{
    let goal = goal_of(s, id)?;
    Some(Window {
        earliest: goal.earliest,
        latest: goal.latest,
    })
}

/// Whether there is a window and the start lies outside it.
pub(crate) fn is_off(window: Option<Window>, start: u32) -> bool
    ensures { result ≡ is_off window start }
{
    match window {
        Some(window) => start < window.earliest || window.latest < start,
        None => false,
    }
}

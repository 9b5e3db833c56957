//! When what a move places makes a timeline worse, and whether it may then be past its limit.
ghost use Rattle.std.specs.Prelude.{◌≤◌, ◌<◌, IfSome};

use crate::added::{Added, Change};
use crate::outside::{Outside, Side};
use crate::reading::is_past;

/// A moment from `from` on and before `to` at which what comes makes the timeline worse, if there is one.
pub(crate) fn worse_within(
    outside: &Outside,
    change: &Change<'_>,
    from: u32,
    to: u32,
) -> Option<u32>
    ensures { IfSome result (λ at. (from ≤ at) × (at < to)) }
{
    for step in change.steps {
        if step.worsens(outside.side) {
            let at = step.moment(change.way);
            if u64::from(from) <= at && at < u64::from(to) {
                return Some(at as u32);
            }
        }
    }
    None
}

/// Whether a timeline may be past its limit between the last look and the next one, if this is added there. A level comes past its limit
/// mostly where there is a look, so it is taken to be past it only if it was so at the last one. A capacity has looks only around the spans
/// in which it is past its limit, so it may be past it anywhere.
pub(crate) fn may_be_past(outside: &Outside, last: Option<i64>, added: Added) -> bool {
    match (outside.side, last) {
        (Side::Over, _) => true,
        (_, Some(value)) => is_past(outside.side, outside.limit, value.saturating_add(added.by)),
        _ => false,
    }
}

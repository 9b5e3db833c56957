//! The price of a plan: of two plans a search goes on from the one of the lower price.

use crate::look::Look;

/// What a conflict costs.
const CONFLICT: u64 = 100;

/// What a repair on the way costs.
const REPAIR: u64 = 5;

/// The most repairs that are counted.
const MOST_REPAIRS: usize = 100_000;

/// The price of a plan that was come to by so many repairs: its conflicts, its activities and the repairs, and where `lengths` says
/// so how long conflicts last.
pub(crate) fn price_of(look: &Look, repairs: usize, lengths: bool) -> u64 {
    let conflicts = u64::from(look.hard) * CONFLICT;
    let activities = u64::from(look.activities);
    let way = repairs.min(MOST_REPAIRS) as u64 * REPAIR;
    let lasting = if lengths { look.lasting } else { 0 };
    (conflicts + activities + way).saturating_add(lasting)
}

//! Orders of the slots of a chosen alternative.
ghost use Rattle.std.specs.Prelude.{◌≡◌, slice_get};
ghost use Rattle.pl_links.specs.Broken.{moment_in, is_unmet, is_order_broken};
ghost use Rattle.pl_links.specs.Filed.{left};

use crate::moments::{are_misplaced, moment};
use crate::placed::Placed;
use crate::store::Store;
use pl_model::{Order, Point};

fn moment_in(
    store: &Store,
    gone: Option<u32>,
    parent: &Placed,
    slot: Option<u32>,
    point: Point,
) -> Option<u32>
    ensures { result ≡ moment_in (left gone store.now) parent.now slot point }
{
    match slot {
        None => moment(point, parent),
        Some(slot) => moment(point, &store.child_left(gone, parent.id, slot)?),
    }
}

fn is_unmet(store: &Store, gone: Option<u32>, parent: &Placed, order: &Order) -> bool
    ensures { result ≡ is_unmet (left gone store.now) parent.now order.now }
{
    match moment_in(store, gone, parent, order.first, order.first_end) {
        Some(first) => {
            let second = moment_in(store, gone, parent, order.second, order.second_end);
            are_misplaced(order.low, order.high, Some(first), second)
        }
        None => false,
    }
}

/// Whether the order of this index is not met, where one activity may be gone.
pub(crate) fn is_order_broken(
    store: &Store,
    gone: Option<u32>,
    own: &Placed,
    orders: &[Order],
    at: usize,
) -> bool
    ensures { result ≡ is_order_broken (left gone store.now) own.now (slice_get orders.now at) }
{
    match orders.get(at) {
        Some(order) => is_unmet(store, gone, own, order),
        None => false,
    }
}

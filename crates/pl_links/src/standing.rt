//! Whether one link or one order is broken.
ghost use Rattle.std.specs.Prelude.{◌≡◌};
ghost use Rattle.pl_links.specs.Broken.{links_of, orders_of};
ghost use Rattle.pl_links.specs.Laws.{fails_at};
ghost use Rattle.pl_links.specs.Standing.{stands};
ghost use Rattle.pl_links.specs.Filed.{left};

use crate::broken::Broken;
use crate::orders::is_order_broken;
use crate::partners::is_link_broken;
use crate::placed::Placed;
use crate::store::Store;
use pl_model::{Link, Model, Order};

pub(crate) fn links_of<'m>(model: &'m Model, item: &Placed) -> &'m [Link]
    ensures { result.now ≡ links_of model.now item.now }
{
    match model.kinds.as_slice().get(item.kind as usize) {
        Some(kind) => kind.links.as_slice(),
        None => &[],
    }
}

pub(crate) fn orders_of<'m>(model: &'m Model, item: &Placed) -> &'m [Order]
    ensures { result.now ≡ orders_of model.now item.now }
{
    match (model.kinds.as_slice().get(item.kind as usize), item.detail) {
        (Some(kind), Some(detail)) => match kind.alternatives.as_slice().get(detail as usize) {
            Some(alternative) => alternative.orders.as_slice(),
            None => &[],
        },
        _ => &[],
    }
}

fn fails_at(
    model: &Model,
    store: &Store,
    gone: Option<u32>,
    own: &Placed,
    index: u32,
    slots: bool,
) -> bool
    ensures { result ≡ fails_at (left gone store.now) own.now
        (links_of model.now own.now) (orders_of model.now own.now) index slots }
{
    if slots {
        is_order_broken(store, gone, own, orders_of(model, own), index as usize)
    } else {
        is_link_broken(store, gone, own, links_of(model, own), index as usize)
    }
}

/// Whether it is a link without a partner, or an order that is not met, where one activity may be
/// gone.
pub(crate) fn stands(model: &Model, store: &Store, gone: Option<u32>, broken: &Broken) -> bool
    ensures { result ≡ stands model.now (left gone store.now) broken.now }
{
    match store.item_left(gone, broken.id) {
        Some(own) => fails_at(model, store, gone, &own, broken.index, broken.slots),
        None => false,
    }
}

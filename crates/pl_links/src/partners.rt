//! Temporal links and their partners.
ghost use Rattle.std.specs.Prelude.{◌≡◌, slice_get};
ghost use Rattle.pl_links.specs.Broken.{lacks_partner, is_link_broken};
ghost use Rattle.pl_links.specs.Filed.{left};

use crate::placed::Placed;
use crate::store::Store;
use pl_model::Link;

fn lacks_partner(store: &Store, gone: Option<u32>, own: &Placed, link: &Link) -> bool
    ensures { result ≡ lacks_partner (left gone store.now) own.now link.now }
{
    own.end.is_some() && !store.has_partner(gone, own, link)
}

/// Whether the link of this index has no partner, where one activity may be gone.
pub(crate) fn is_link_broken(
    store: &Store,
    gone: Option<u32>,
    own: &Placed,
    links: &[Link],
    at: usize,
) -> bool
    ensures { result ≡ is_link_broken (left gone store.now) own.now (slice_get links.now at) }
{
    match links.get(at) {
        Some(link) => lacks_partner(store, gone, own, link),
        None => false,
    }
}

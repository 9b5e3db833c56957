//! The placed activities are walked through where no index has their points: where the model of the
//! calls does not ask for these points, or where it was another one when the first came.
ghost use Rattle.std.specs.Prelude.{◌≡◌, ◌++◌, OnOk};
ghost use Rattle.std.specs.List.{list_any};
ghost use Rattle.std.specs.Map.{values_of};
ghost use Rattle.pl_links.specs.Filed.{is_partner_but};
ghost use Rattle.pl_links.specs.Near.{owners_all};

use crate::broken::Broken;
use crate::index::is_other;
use crate::moments::{are_apart, moment};
use crate::placed::Placed;
use pl_model::Link;
use std::alloc::AllocError;
use std::collections::BTreeMap;

/// Whether one of them is a partner for a link of this activity, whose point is at this moment,
/// where one may be gone.
pub(crate) fn has_partner_among(
    items: &BTreeMap<u32, Placed>,
    gone: Option<u32>,
    own: u32,
    mine: u32,
    link: &Link,
) -> bool
    ensures { result
        ≡ list_any (is_partner_but link.now own gone mine) (values_of items.now.entries) }
{
    for other in items.values() {
        if is_partner_but(link, own, gone, mine, other) {
            return true;
        }
    }
    false
}

fn is_partner_but(link: &Link, own: u32, gone: Option<u32>, mine: u32, other: &Placed) -> bool
    ensures { result ≡ is_partner_but link.now own gone mine other.now }
{
    is_other(own, gone, other.id)
        && other.kind == link.kind
        && are_apart(link.low, link.high, Some(mine), moment(link.theirs, other))
}

/// Adds the link of this index of each activity of the group.
pub(crate) fn add_all_owners(
    near: &mut Vec<Broken>,
    items: &BTreeMap<u32, Placed>,
    group: u32,
    index: u32,
) -> Result<(), AllocError>
    ensures { OnOk result (near.new.items ≡ near.old.items
        ++ owners_all (values_of items.now.entries) group index) }
{
    for owner in items.values() {
        if owner.kind == group {
            near.push(Broken {
                id: owner.id,
                index,
                slots: false,
            })?;
        }
    }
    Ok(())
}

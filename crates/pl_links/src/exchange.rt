//! The list of what is broken, with what comes and without what goes.
ghost use Rattle.std.specs.Prelude.{◌≡◌, ◌&&◌, ◌||◌, not, false, All, OnOk, OnErr};
ghost use Rattle.std.specs.List.Sorted.{IsStrictlySortedBy};
ghost use Rattle.pl_links.specs.declared.broken.Broken.{Broken};
ghost use Rattle.pl_links.specs.Sets.{broken_cmp, has};

use crate::broken::Broken;
use std::alloc::AllocError;
use std::collections::BTreeSet;

/// Takes these out.
pub(crate) fn remove_all(listed: &mut BTreeSet<Broken>, went: &[Broken])
    requires { IsStrictlySortedBy broken_cmp listed.old.keys }
    ensures members { (b : Broken) →
        has b listed.new.keys ≡ (has b listed.old.keys && not (has b went.now)) }
    ensures ordered { IsStrictlySortedBy broken_cmp listed.new.keys }
{
    for broken in went {
        listed.remove(broken);
    }
}

/// Puts these in, none of which is listed.
pub(crate) fn insert_all(listed: &mut BTreeSet<Broken>, came: &[Broken]) -> Result<(), AllocError>
    requires ordered { IsStrictlySortedBy broken_cmp listed.old.keys }
    requires absent { All (λ b. has b listed.old.keys ≡ false) came.now }
    ensures members { OnOk result ((b : Broken) →
        has b listed.new.keys ≡ (has b listed.old.keys || has b came.now)) }
    ensures err { OnErr result (listed.new.keys ≡ listed.old.keys) }
    ensures rising { IsStrictlySortedBy broken_cmp listed.new.keys }
{
    for (at, broken) in came.iter().enumerate() {
        if listed.insert(*broken).is_err() {
            remove_all(listed, &came[..at]);
            return Err(AllocError);
        }
    }
    Ok(())
}

/// Each of these once, in order.
pub(crate) fn each_once(mut all: Vec<Broken>) -> Vec<Broken>
    ensures members { (b : Broken) → has b result.items ≡ has b all.items }
    ensures ordered { IsStrictlySortedBy broken_cmp result.items }
{
    all.sort_unstable();
    all.dedup();
    all
}

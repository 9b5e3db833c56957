//! Starts in their order, and their ids.
ghost use Rattle.std.specs.Prelude.{◌≡◌, ℕ, ◌<◌, ◌-◌, [], ◌++◌, true, length, map, slice_index_or, IfOk, OnOk, OnErr};
ghost use Rattle.std.specs.List.Sorted.{IsStrictlySortedBy};
ghost use Rattle.std.specs.declared.cmp.Ordering.TheVariants.{Less};
ghost use Rattle.std.specs.BTreeSet.{insert_key};
ghost use Rattle.pl_entry.specs.Due.{start_cmp, with_starts};

use std::alloc::{AllocError, Global};
use std::collections::BTreeSet;

// Whether a start is behind the one before it, if there is one.
fn is_behind(starts: &[(u32, u32)], place: usize) -> bool
    requires { place < length starts.now }
    ensures { result ≡ true → 0 < place → (d : ℕ × ℕ) → start_cmp (slice_index_or starts.now (place - 1) d) (slice_index_or starts.now place d) ≡ Less }
{
    place == 0 || starts[place - 1] < starts[place]
}

/// Whether each start is before the next one.
fn are_in_order(starts: &[(u32, u32)]) -> bool
    ensures { result ≡ true → IsStrictlySortedBy start_cmp starts.now }
{
    for place in 0..starts.len() {
        if !is_behind(starts, place) {
            return false;
        }
    }
    true
}

fn insert_start(set: &mut BTreeSet<(u32, u32)>, start: (u32, u32)) -> Result<(), AllocError>
    ensures { OnOk result (set.new.keys ≡ insert_key start_cmp set.old.keys start) }
{
    set.insert(start)?;
    Ok(())
}

fn set_of(starts: &[(u32, u32)], alloc: Global) -> Result<BTreeSet<(u32, u32)>, AllocError>
    ensures { IfOk result (λ set. set.keys ≡ with_starts [] starts.now) }
{
    let mut set = BTreeSet::new(alloc);
    for start in starts {
        insert_start(&mut set, *start)?;
    }
    Ok(set)
}

fn push_all(starts: &mut Vec<(u32, u32)>, set: &BTreeSet<(u32, u32)>) -> Result<(), AllocError>
    ensures { OnOk result (starts.new.items ≡ starts.old.items ++ set.now.keys) }
{
    for start in set {
        starts.push(*start)?;
    }
    Ok(())
}

/// Puts the starts in their order. Mostly they are in it.
pub(crate) fn sort(starts: &mut Vec<(u32, u32)>, alloc: Global) -> Result<(), AllocError>
    ensures { OnOk result (starts.new.items ≡ with_starts [] starts.old.items) }
{
    if are_in_order(starts) {
        return Ok(());
    }
    let set = set_of(starts, alloc)?;
    starts.clear();
    push_all(starts, &set)
}

/// Appends the ids of the starts. For want of memory none is appended.
pub(crate) fn push_ids(ids: &mut Vec<u32>, starts: &[(u32, u32)]) -> Result<(), AllocError>
    ensures ok { OnOk result (ids.new.items ≡ ids.old.items ++ map (λ s. s.1) starts.now) }
    ensures err { OnErr result (ids.new.items ≡ ids.old.items) }
{
    ids.reserve(starts.len())?;
    for (_, id) in starts {
        ids.push(*id).unwrap();
    }
    Ok(())
}

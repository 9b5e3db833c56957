//! Which broken spans of a must are not among others of it.
ghost use Rattle.std.specs.Prelude.{◌≡◌, ◌++◌, List, OnOk, IfOk};
ghost use Rattle.std.specs.List.Sorted.{IsSorted};
ghost use Rattle.pl_lists.specs.Lists.{is_among, left_out};
ghost use Rattle.pl_state.specs.declared.answer.BrokenMust.{BrokenMust};
ghost use Rattle.pl_state.specs.Timelines.{same_broken};
ghost use Rattle.pl_state.specs.Sorted.{broken_cmp};

use crate::answer::BrokenMust;
use pl_lists::Items;
use std::alloc::{AllocError, Global};

// The spans by id, index, start and end. Those of one must stand so already.
fn in_order(alloc: Global, spans: &[BrokenMust]) -> Result<Vec<BrokenMust>, AllocError>
    ensures sorted { IfOk result (λ v. IsSorted broken_cmp v.items) }
    ensures same { IfOk result (λ v. (list : List BrokenMust) → left_out same_broken v.items list
        ≡ left_out same_broken spans.now list) }
{
    let mut ordered = Vec::from_slice(alloc, spans)?;
    ordered.sort()?;
    Ok(ordered)
}

fn contains(ordered: &[BrokenMust], span: &BrokenMust) -> bool
    requires { IsSorted broken_cmp ordered.now }
    ensures { result ≡ is_among same_broken ordered.now span.now }
{
    ordered.binary_search(span).is_ok()
}

// Puts those that are not among the ordered ones behind what is missing.
fn push_absent(
    missing: &mut Items<BrokenMust>,
    ordered: &[BrokenMust],
    list: &[BrokenMust],
) -> Result<(), AllocError>
    requires { IsSorted broken_cmp ordered.now }
    ensures { OnOk result (missing.new ≡ missing.old ++ left_out same_broken ordered.now list.now) }
{
    for span in list {
        if !contains(ordered, span) {
            missing.push(*span)?;
        }
    }
    Ok(())
}

/// Puts those that are not among the others behind what is missing.
pub(crate) fn push_missing(
    alloc: Global,
    missing: &mut Items<BrokenMust>,
    others: &[BrokenMust],
    list: &[BrokenMust],
) -> Result<(), AllocError>
    ensures { OnOk result (missing.new ≡ missing.old ++ left_out same_broken others.now list.now) }
{
    if list.is_empty() {
        return Ok(());
    }
    let ordered = in_order(alloc, others)?;
    push_absent(missing, &ordered, list)?;
    Ok(())
}

ghost use Rattle.std.specs.Prelude.{◌≡◌, ◌≤◌, ◌-◌, ◌++◌, length, take, drop, OnOk, IfOk};
ghost use Rattle.pl_state.specs.Keys.{AreSorted, KnowsKey};
ghost use Rattle.pl_lists.specs.Lists.{left_out};

use crate::answer::{BadSet, BrokenMust, StateChange};
use crate::key::{Key, Keyed, position_of};
use pl_lists::Items;
use std::alloc::{AllocError, Global};

impl Keyed for BrokenMust {
    ghost use Rattle.pl_state.specs.Near.{group_key};
    ghost use Rattle.pl_state.specs.Timelines.{same_broken};

    ghost key = { group_key };

    ghost same = { same_broken };

    fn key(&self) -> Key {
        Key {
            at: 0,
            id: self.id,
            index: self.index,
        }
    }

    fn is_same(&self, other: &BrokenMust) -> bool {
        self.id == other.id
            && (self.index == other.index && (self.from == other.from && self.to == other.to))
    }
}

impl Keyed for BadSet {
    ghost use Rattle.pl_state.specs.Sorted.{bad_key};
    ghost use Rattle.pl_state.specs.Timelines.{same_bad};

    ghost key = { bad_key };

    ghost same = { same_bad };

    fn key(&self) -> Key {
        Key {
            at: self.at,
            id: self.id,
            index: self.index,
        }
    }

    fn is_same(&self, other: &BadSet) -> bool {
        self.at == other.at && (self.id == other.id && self.index == other.index)
    }
}

// Those that are not among the others, which are sorted.
fn missing_from<T: Keyed>(alloc: Global, others: &[T], list: &[T]) -> Result<Items<T>, AllocError>
    requires sorted { AreSorted T.key others.now }
    requires known { KnowsKey T.key T.same }
    ensures { IfOk result (λ v. v ≡ left_out T.same others.now list.now) }
{
    let mut missing = Items::new(alloc);
    for item in list {
        if position_of(others, item).is_none() {
            missing.push(*item)?;
        }
    }
    Ok(missing)
}

// What left and came into a list.
#[derive(Drop)]
pub(crate) struct Difference<T> {
    pub(crate) went: Items<T>,
    pub(crate) came: Items<T>,
}

// Puts the fresh items in the place of those from `begin` up to but not at `end`.
pub(crate) fn replace<T: Keyed>(
    list: &mut Vec<T>,
    begin: usize,
    end: usize,
    fresh: &[T],
) -> Result<(), AllocError>
    requires begin { begin ≤ end }
    requires end { end ≤ length list.old.items }
    ensures { OnOk result (list.new.items ≡ take begin list.old.items ++
        (fresh.now ++ drop end list.old.items)) }
{
    if begin == end && fresh.is_empty() {
        return Ok(());
    }
    list.splice(begin..end, fresh.iter().copied())?;
    Ok(())
}

// The same, and says which of the items that went stand no more, and which of the fresh ones did not stand.
pub(crate) fn exchange<T: Keyed>(
    alloc: Global,
    list: &mut Vec<T>,
    begin: usize,
    end: usize,
    fresh: &[T],
) -> Result<Difference<T>, AllocError>
    requires begin { begin ≤ end }
    requires end { end ≤ length list.old.items }
    requires known { KnowsKey T.key T.same }
    requires sorted_old { AreSorted T.key list.old.items }
    requires sorted_new { AreSorted T.key
        (take begin list.old.items ++ (fresh.now ++ drop end list.old.items)) }
    ensures items { OnOk result (list.new.items
        ≡ take begin list.old.items ++ (fresh.now ++ drop end list.old.items)) }
    ensures went { IfOk result (λ d. d.went ≡ left_out T.same list.new.items
        (take (end - begin) (drop begin list.old.items))) }
    ensures came { IfOk result (λ d. d.came ≡ left_out T.same list.old.items fresh.now) }
{
    let gone = Vec::from_slice(alloc, &list[begin..end])?;
    let came = missing_from(alloc, list, fresh)?;
    replace(list, begin, end, fresh)?;
    let went = missing_from(alloc, list, &gone)?;
    Ok(Difference { went, came })
}

// The answer of a change.
pub(crate) fn answer(musts: Difference<BrokenMust>, steps: Difference<BadSet>) -> StateChange
    ensures { result ≡ record {
      musts_went = musts.went;
      musts_came = musts.came;
      steps_went =
          steps.went;
      steps_came = steps.came;
    } }
{
    let Difference {
        went: musts_went,
        came: musts_came,
    } = musts;
    let Difference {
        went: steps_went,
        came: steps_came,
    } = steps;
    StateChange {
        musts_went,
        musts_came,
        steps_went,
        steps_came,
    }
}

//! Where the musts are broken: the spans of each must behind those of the one before it.
ghost use Rattle.std.specs.Prelude.{◌≡◌, ◌≤◌, ◌∷◌, [], List, length, OnOk, IfOk};
ghost use Rattle.pl_state.specs.declared.key.Key.{Key};
ghost use Rattle.pl_state.specs.declared.reservation.Must.{Must};
ghost use Rattle.pl_state.specs.declared.answer.BrokenMust.{BrokenMust};
ghost use Rattle.pl_state.specs.Keys.{AreSorted};
ghost use Rattle.pl_state.specs.Sets.{AreInOrder};
ghost use Rattle.pl_state.specs.Timelines.{same_broken};
ghost use Rattle.pl_lists.specs.Lists.{left_out};
ghost use Rattle.pl_state.specs.Near.{group_key, IsKeyed, AreRightBut, IsBegun};
ghost use Rattle.pl_state.specs.Present.{group_at, broken_at};

use crate::answer::BrokenMust;
use crate::key::{Key, count_before, run_of};
use crate::listed::{Difference, replace};
use crate::missing::push_missing;
use crate::musts::Musts;
use crate::present::Present;
use crate::sets::Sets;
use pl_lists::Items;
use std::alloc::{AllocError, Global};

// How far the work has come: where the first change may be, the musts that are passed and the old
// spans that are taken, what comes in the place of those from there on, and what went and came.
#[derive(Drop)]
struct Renewal {
    begin: usize,
    passed: usize,
    taken: usize,
    fresh: Vec<BrokenMust>,
    went: Items<BrokenMust>,
    came: Items<BrokenMust>,
}

fn renewal_from(alloc: Global, passed: usize, taken: usize) -> Renewal
    ensures begin { result.begin ≡ taken }
    ensures passed { result.passed ≡ passed }
    ensures taken { result.taken ≡ taken }
    ensures fresh { result.fresh.items ≡ [] }
    ensures went { result.went ≡ [] }
    ensures came { result.came ≡ [] }
{
    Renewal {
        begin: taken,
        passed,
        taken,
        fresh: Vec::new(alloc),
        went: Items::new(alloc),
        came: Items::new(alloc),
    }
}

// Before the first key nothing changes.
fn begun(alloc: Global, musts: &Musts, keys: &[Key], broken: &[BrokenMust]) -> Renewal
    requires { AreSorted group_key broken.now }
    ensures { (group : Must → List BrokenMust) → IsKeyed group
        → AreRightBut keys.now group musts.now broken.now
        → IsBegun group musts.now broken.now keys.now result.begin result.passed result.taken
        result.fresh.items result.went result.came }
{
    match keys.first() {
        None => renewal_from(alloc, musts.len(), broken.len()),
        Some(key) => {
            let passed = musts.begun_count(*key);
            let taken = count_before(broken, *key);
            renewal_from(alloc, passed, taken)
        }
    }
}

// Keeps the spans before those with the key, and works the spans with it out anew.
fn renew_key(
    alloc: Global,
    sets: &Sets,
    present: Present,
    musts: &Musts,
    key: Key,
    broken: &[BrokenMust],
    renewal: &mut Renewal,
) -> Result<(), AllocError>
    requires ordered { AreInOrder 0 sets.now }
    requires sorted { AreSorted group_key broken.now }
    requires in_musts { renewal.old.passed ≤ length musts.now }
    requires in_broken { renewal.old.taken ≤ length broken.now }
    ensures { OnOk result ((keys : List Key)
        → IsBegun (group_at present sets.now) musts.now broken.now (key ∷ keys) renewal.old.begin
        renewal.old.passed renewal.old.taken renewal.old.fresh.items renewal.old.went renewal.old.came
        → IsBegun (group_at present sets.now) musts.now broken.now keys renewal.new.begin
        renewal.new.passed renewal.new.taken renewal.new.fresh.items renewal.new.went renewal.new.came) }
{
    let run = musts.run_of(renewal.passed, key);
    let old = run_of(broken, renewal.taken, key);
    let group = musts.groups_in(alloc, sets, present, run)?;
    let gone = &broken[old.begin..old.behind];
    push_missing(alloc, &mut renewal.went, &group, gone)?;
    push_missing(alloc, &mut renewal.came, gone, &group)?;
    renewal
        .fresh
        .extend_from_slice(&broken[renewal.taken..old.begin])?;
    renewal.fresh.extend_from_slice(&group)?;
    renewal.passed = run.behind;
    renewal.taken = old.behind;
    Ok(())
}

// What comes in the place of what, for all the keys.
fn renewed(
    alloc: Global,
    sets: &Sets,
    present: Present,
    musts: &Musts,
    keys: &[Key],
    broken: &[BrokenMust],
) -> Result<Renewal, AllocError>
    requires ordered { AreInOrder 0 sets.now }
    requires sorted { AreSorted group_key broken.now }
    requires right { AreRightBut keys.now (group_at present sets.now) musts.now broken.now }
    ensures { IfOk result (λ r. IsBegun (group_at present sets.now) musts.now broken.now [] r.begin
        r.passed
        r.taken r.fresh.items r.went r.came) }
{
    let mut renewal = begun(alloc, musts, keys, broken);
    for key in keys {
        renew_key(alloc, sets, present, musts, *key, broken, &mut renewal)?;
    }
    Ok(renewal)
}

/// Works out anew where the musts with these keys are broken, and leaves the others as they are.
pub(crate) fn renew(
    alloc: Global,
    sets: &Sets,
    present: Present,
    musts: &Musts,
    keys: &[Key],
    broken: &mut Vec<BrokenMust>,
) -> Result<Difference<BrokenMust>, AllocError>
    requires ordered { AreInOrder 0 sets.now }
    requires sorted { AreSorted group_key broken.old.items }
    requires right { AreRightBut keys.now (group_at present sets.now) musts.now broken.old.items }
    ensures broken { OnOk result (broken.new.items ≡ broken_at present sets.now musts.now) }
    ensures went { IfOk result (λ d. d.went ≡ left_out same_broken broken.new.items
        broken.old.items) }
    ensures came { IfOk result (λ d. d.came ≡ left_out same_broken broken.old.items
        broken.new.items) }
{
    let renewal = renewed(alloc, sets, present, musts, keys, broken)?;
    replace(broken, renewal.begin, renewal.taken, &renewal.fresh)?;
    let Renewal { went, came, .. } = renewal;
    Ok(Difference { went, came })
}

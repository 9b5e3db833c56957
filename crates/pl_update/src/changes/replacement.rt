ghost use Rattle.std.specs.Prelude.{◌≡◌, OnOk, IsTrue, ◌+◌, ◌≤◌, ◌++◌, All, IfSome, map};
ghost use Rattle.pl_plan.specs.Activities.{AreRising, IsLive, KeepsPlace};
ghost use Rattle.pl_plan.specs.Trees.{id_of};
ghost use Rattle.pl_update.specs.Changes.Replaced.{taken, put, replaced, next_after};
ghost use Rattle.pl_update.specs.Changes.Renewed.{renewed, all_renewed, ComeAgain};
ghost use Rattle.pl_update.specs.Changes.Putting.{CanPut};

use pl_lists::Copied;
use pl_plan::{Activity, Plan};
use std::alloc::{AllocError, Global};

fn take_all(plan: &mut Plan, gone: &[u32])
    ensures { plan.new.activities ≡ taken plan.old.activities gone.now }
{
    for id in gone {
        plan.take(*id);
    }
}

fn put_all(alloc: Global, plan: &mut Plan, placed: &[Activity]) -> Result<(), AllocError>
    requires { CanPut plan.old.activities placed.now }
    ensures { OnOk result (plan.new.activities ≡ put plan.old.activities placed.now) }
{
    for a in placed {
        plan.put(a.copy(alloc)?)?;
    }
    Ok(())
}

// Whether it stands where the live activity of its id does.
fn keeps_place(plan: &Plan, a: &Activity) -> bool
    ensures { IsTrue result → IsLive a.now.id plan.now.activities × KeepsPlace a.now plan.now.activities }
{
    match plan.get(a.id) {
        Some(b) => b.parent == a.parent && b.goal == a.goal,
        None => false,
    }
}

// Puts an activity in the place of the one of its id.
fn renew(alloc: Global, plan: &mut Plan, a: &Activity) -> Result<(), AllocError>
    requires { AreRising plan.old.activities }
    ensures { OnOk result (plan.new.activities ≡ renewed a.now plan.old.activities) }
{
    let keeps = keeps_place(plan, a);
    let a = a.copy(alloc)?;
    if keeps {
        plan.exchange(a);
        return Ok(());
    }
    plan.take(a.id);
    plan.put(a)?;
    Ok(())
}

#[tactic(auto, using(crate::proofs::AboutChanges::Renewing::rising_renewed))]
fn renew_all(alloc: Global, plan: &mut Plan, placed: &[Activity]) -> Result<(), AllocError>
    requires { AreRising plan.old.activities }
    ensures { OnOk result (plan.new.activities ≡ all_renewed plan.old.activities placed.now) }
{
    for a in placed {
        renew(alloc, plan, a)?;
    }
    Ok(())
}

/// Activities that come in the places of those that go, and the others that come.
#[derive(Drop)]
pub(crate) struct Renewal<'a> {
    first: &'a [Activity],
    rest: &'a [Activity],
}

/// The activities that come again, and the others that come, if the ids that go are the first of those that come, in the same order.
pub(crate) fn come_again<'a>(gone: &[u32], placed: &'a [Activity]) -> Option<Renewal<'a>>
    ensures { IfSome result (λ r. ComeAgain gone.now placed.now r.first.now r.rest.now) }
{
    if placed.len() < gone.len() {
        return None;
    }
    let (first, rest) = placed.split_at(gone.len());
    for (place, id) in gone.iter().enumerate() {
        if first[place].id != *id {
            return None;
        }
    }
    Some(Renewal { first, rest })
}

#[tactic(auto, using(crate::proofs::AboutChanges::Renewing::renewed_replaced, crate::proofs::AboutChanges::Renewing::renewed_puttable))]
fn renew_and_put(alloc: Global, plan: &mut Plan, renewal: &Renewal<'_>) -> Result<(), AllocError>
    requires rising { AreRising plan.old.activities }
    requires can { CanPut (taken plan.old.activities (map id_of renewal.now.first.now)) (renewal.now.first.now ++ renewal.now.rest.now) }
    ensures { OnOk result (plan.new.activities ≡ replaced plan.old.activities (map id_of renewal.now.first.now) (renewal.now.first.now ++ renewal.now.rest.now)) }
{
    renew_all(alloc, plan, renewal.first)?;
    put_all(alloc, plan, renewal.rest)?;
    Ok(())
}

/// Takes activities out, and puts others in.
#[tactic(auto, unfolding(crate::specs::Changes::Replaced::replaced))]
pub fn replace(
    alloc: Global,
    plan: &mut Plan,
    gone: &[u32],
    placed: &[Activity],
) -> Result<(), AllocError>
    requires rising { AreRising plan.old.activities }
    requires can { CanPut (taken plan.old.activities gone.now) placed.now }
    ensures { OnOk result (plan.new.activities ≡ replaced plan.old.activities gone.now placed.now) }
{
    if let Some(renewal) = come_again(gone, placed) {
        return renew_and_put(alloc, plan, &renewal);
    }
    take_all(plan, gone);
    put_all(alloc, plan, placed)?;
    Ok(())
}

/// One more than the greatest id placed, where that is greater.
pub fn next_after(next: u32, placed: &[Activity]) -> u32
    requires { All (λ a. (1 ≤ a.id) × (a.id ≤ 4000000000)) placed.now }
    ensures { result ≡ next_after next placed.now }
{
    let mut next = next;
    for a in placed {
        next = next.max(a.id + 1);
    }
    next
}

ghost use Rattle.std.specs.Prelude.{◌≡◌, ◌≤◌, ◌≤ℤ◌, pos, true, false, [], ◌∷◌, ◌++◌, length};
ghost use Rattle.pl_points.specs.Standing.{without, stands};
ghost use Rattle.pl_capacity.specs.Uses.{IsUse, use_of, same_use};

use crate::asserting::holds;
use pl_capacity::Capacity;
use pl_lists::Copied;
use pl_points::{Change, PlainPoints, Quiet, Span, Steps};
use std::alloc::{AllocError, Global};
use std::process::Abort;

fn started(alloc: Global, horizon: u32, most: i64) -> Capacity<PlainPoints>
    requires { pos 0 ≤ℤ most }
    ensures { result ≡ record { spoiled = false; horizon = horizon; most = most; moment = 0; uses = [] } }
{
    Capacity::new(alloc, horizon, most, PlainPoints::new(alloc))
}

fn add(
    rt: &impl Abort,
    capacity: &mut Capacity<PlainPoints>,
    from: u32,
    to: u32,
    amount: i64,
) -> Change
    requires is_use { IsUse (use_of from to amount) }
    requires few { length capacity.old.uses ≤ 319999 }
    ensures { capacity.new ≡ record capacity.old { uses = capacity.old.uses ++ use_of from to amount ∷ [] } }
{
    let change = capacity.add(from, to, amount, &mut Steps::new(Quiet));
    change.expect(rt, "memory")
}

fn remove(
    rt: &impl Abort,
    capacity: &mut Capacity<PlainPoints>,
    from: u32,
    to: u32,
    amount: i64,
) -> Change
    requires { stands same_use (use_of from to amount) capacity.old.uses ≡ true }
    ensures { capacity.new ≡ record capacity.old { uses = without same_use (use_of from to amount) capacity.old.uses } }
{
    let change = capacity.remove(from, to, amount, &mut Steps::new(Quiet));
    change.expect(rt, "memory")
}

fn advance(rt: &impl Abort, capacity: &mut Capacity<PlainPoints>, now: u32) -> Change
    requires later { capacity.old.moment ≤ now }
    requires bound { now ≤ capacity.old.horizon }
    ensures { capacity.new ≡ record capacity.old { moment = now } }
{
    let change = capacity.advance(now, &mut Steps::new(Quiet));
    change.expect(rt, "memory")
}

// Whether the capacity is above its most nowhere.
fn has_none(capacity: &Capacity<PlainPoints>) -> bool {
    !capacity.spoiled() && capacity.spans().is_empty()
}

// Whether the capacity is above its most in this span alone.
fn has_one(capacity: &Capacity<PlainPoints>, from: u32, to: u32) -> bool {
    !capacity.spoiled() && is_one(capacity.spans(), from, to)
}

// Whether this span is there alone.
pub(crate) fn is_one(spans: &[Span], from: u32, to: u32) -> bool {
    match spans {
        [span] => span.from == from && span.to == to,
        _ => false,
    }
}

// Two uses that overlap.
fn overlapped(rt: &impl Abort, alloc: Global) -> Capacity<PlainPoints>
    ensures { result ≡ record { spoiled = false; horizon = 100; most = pos 10; moment = 0; uses = use_of 5 15 (pos 6) ∷ use_of 10 20 (pos 6) ∷ [] } }
{
    let mut camera = started(alloc, 100, 10);
    add(rt, &mut camera, 5, 15, 6);
    add(rt, &mut camera, 10, 20, 6);
    camera
}

#[test]
fn a_use_that_goes(rt: HostRuntime) {
    let mut camera = overlapped(&rt, rt.alloc());
    let copy = camera.copy(rt.alloc()).expect(&rt, "memory");
    let later = advance(&rt, &mut camera, 12);
    holds(&rt, "what went", is_one(later.went.as_slice(), 10, 15));
    holds(&rt, "what came", is_one(later.came.as_slice(), 12, 15));
    let gone = remove(&rt, &mut camera, 5, 15, 6);
    holds(&rt, "what is gone", is_one(gone.went.as_slice(), 12, 15));
    holds(&rt, "nothing that came", gone.came.is_empty());
    holds(&rt, "no span", has_none(&camera));
    holds(&rt, "the copy", has_one(&copy, 10, 15));
}

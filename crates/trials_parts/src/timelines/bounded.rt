//! Changes over block points, by the calls that bound their steps.
ghost use Rattle.std.specs.Prelude.{◌≡◌, ◌≤◌, pos, neg_ℤ, true, false, [], ◌∷◌, ◌++◌, length};
ghost use Rattle.pl_capacity.specs.Uses.{IsUse, use_of};
ghost use Rattle.pl_level.specs.Effects.{IsEffect, effect_of};

use crate::asserting::holds;
use crate::timelines::capacities::is_one;
use pl_blocks::BlockPoints;
use pl_capacity::Capacity;
use pl_level::{Level, LevelChange};
use pl_points::{Change, Quiet, Steps};
use std::alloc::{AllocError, Global};
use std::process::Abort;

fn add_use(
    rt: &impl Abort,
    camera: &mut Capacity<BlockPoints>,
    from: u32,
    to: u32,
    amount: i64,
) -> Change
    requires is_use { IsUse (use_of from to amount) }
    requires few { length camera.old.uses ≤ 319999 }
    ensures { camera.new ≡ record camera.old { uses = camera.old.uses ++ use_of from to amount ∷ [] } }
{
    let change = pl_capacity::add_bounded(camera, from, to, amount, &mut Steps::new(Quiet));
    change.expect(rt, "memory")
}

// Two uses that overlap.
fn overlapped(rt: &impl Abort, alloc: Global) -> Capacity<BlockPoints>
    ensures { result ≡ record { spoiled = false; horizon = 100; most = pos 10; moment = 0; uses = use_of 5 15 (pos 6) ∷ use_of 10 20 (pos 6) ∷ [] } }
{
    let mut camera = Capacity::new(alloc, 100, 10, BlockPoints::new(alloc));
    add_use(rt, &mut camera, 5, 15, 6);
    add_use(rt, &mut camera, 10, 20, 6);
    camera
}

#[test]
fn a_use_comes_and_goes(rt: HostRuntime) {
    let mut camera = overlapped(&rt, rt.alloc());
    holds(&rt, "the span", is_one(camera.spans(), 10, 15));
    let gone = pl_capacity::remove_bounded(&mut camera, 5, 15, 6, &mut Steps::new(Quiet));
    let gone = gone.expect(&rt, "memory");
    holds(&rt, "what went", is_one(gone.went.as_slice(), 10, 15));
    holds(&rt, "nothing that came", gone.came.is_empty());
    holds(&rt, "no span", camera.spans().is_empty());
    holds(&rt, "enough memory", !camera.spoiled());
}

fn add_effect(rt: &impl Abort, battery: &mut Level<BlockPoints>, at: u32, delta: i64) -> LevelChange
    requires is_effect { IsEffect (effect_of at delta) }
    requires few { length battery.old.effects ≤ 319999 }
    ensures { battery.new ≡ record battery.old { effects = battery.old.effects ++ effect_of at delta ∷ [] } }
{
    let change = pl_level::add_bounded(battery, at, delta, &mut Steps::new(Quiet));
    change.expect(rt, "memory")
}

// Lowered below its least in the middle.
fn drained(rt: &impl Abort, alloc: Global) -> Level<BlockPoints>
    ensures { result ≡ record { spoiled = false; horizon = 100; least = pos 0; most = pos 100; moment = 0; base = 0; value = pos 20; effects = effect_of 40 (neg_ℤ (pos 30)) ∷ effect_of 60 (pos 30) ∷ [] } }
{
    let mut battery = Level::new(alloc, 100, 0, 100, 20, BlockPoints::new(alloc));
    add_effect(rt, &mut battery, 40, -30);
    add_effect(rt, &mut battery, 60, 30);
    battery
}

#[test]
fn an_effect_comes_and_goes(rt: HostRuntime) {
    let mut battery = drained(&rt, rt.alloc());
    holds(&rt, "the span", is_one(battery.low_spans(), 40, 60));
    holds(&rt, "never high", battery.high_spans().is_empty());
    let gone = pl_level::remove_bounded(&mut battery, 60, 30, &mut Steps::new(Quiet));
    let gone = gone.expect(&rt, "memory");
    holds(&rt, "what went", is_one(gone.low.went.as_slice(), 40, 60));
    holds(&rt, "what came", is_one(gone.low.came.as_slice(), 40, 100));
    holds(&rt, "the span then", is_one(battery.low_spans(), 40, 100));
    holds(&rt, "enough memory", !battery.spoiled());
}

ghost use Rattle.std.specs.Prelude.{◌≡◌, ◌<◌, ◌≤◌, ◌≤ℤ◌, ◌^◌, pos, neg_ℤ, true, false, [], ◌∷◌, ◌++◌, length};
ghost use Rattle.pl_points.specs.Standing.{without, stands};
ghost use Rattle.pl_level.specs.Effects.{IsEffect, IsValue, effect_of, same_effect};

use crate::asserting::holds;
use crate::timelines::capacities::is_one;
use pl_level::{Level, LevelChange};
use pl_lists::Copied;
use pl_points::{PlainPoints, Quiet, Steps};
use std::alloc::{AllocError, Global};
use std::process::Abort;

fn started(alloc: Global, horizon: u32, least: i64, most: i64, start: i64) -> Level<PlainPoints>
    requires least { IsValue least }
    requires most { IsValue most }
    requires start { IsValue start }
    requires horizon { 0 < horizon }
    ensures { result ≡ record { spoiled = false; horizon = horizon; least = least; most = most; moment = 0; base = 0; value = start; effects = [] } }
{
    Level::new(alloc, horizon, least, most, start, PlainPoints::new(alloc))
}

fn add(rt: &impl Abort, level: &mut Level<PlainPoints>, at: u32, delta: i64) -> LevelChange
    requires is_effect { IsEffect (effect_of at delta) }
    requires few { length level.old.effects ≤ 319999 }
    ensures { level.new ≡ record level.old { effects = level.old.effects ++ effect_of at delta ∷ [] } }
{
    let change = level.add(at, delta, &mut Steps::new(Quiet));
    change.expect(rt, "memory")
}

fn remove(rt: &impl Abort, level: &mut Level<PlainPoints>, at: u32, delta: i64) -> LevelChange
    requires { stands same_effect (effect_of at delta) level.old.effects ≡ true }
    ensures { level.new ≡ record level.old { effects = without same_effect (effect_of at delta) level.old.effects } }
{
    let change = level.remove(at, delta, &mut Steps::new(Quiet));
    change.expect(rt, "memory")
}

fn advance(rt: &impl Abort, level: &mut Level<PlainPoints>, now: u32) -> LevelChange
    requires later { level.old.moment ≤ now }
    requires bound { now ≤ level.old.horizon }
    ensures { level.new ≡ record level.old { moment = now } }
{
    let change = level.advance(now, &mut Steps::new(Quiet));
    change.expect(rt, "memory")
}

fn rebase(rt: &impl Abort, level: &mut Level<PlainPoints>, value: i64) -> LevelChange
    requires { IsValue value }
    ensures { level.new ≡ record level.old { base = level.old.moment; value = value } }
{
    let change = level.rebase(value, &mut Steps::new(Quiet));
    change.expect(rt, "memory")
}

fn at(level: &Level<PlainPoints>, t: u32) -> i64
    requires now { level.now.moment ≤ t }
    requires before_horizon { t < level.now.horizon }
{
    level.at(t, &mut Steps::new(Quiet))
}

// Whether the level is below its least in this span alone, and never above its most.
fn has_low(level: &Level<PlainPoints>, from: u32, to: u32) -> bool {
    !level.spoiled() && is_one(level.low_spans(), from, to) && level.high_spans().is_empty()
}

// At the moment 50, with an effect there and one a moment later.
fn drained(rt: &impl Abort, alloc: Global) -> Level<PlainPoints>
    ensures { result ≡ record { spoiled = false; horizon = 100; least = pos 35; most = pos 100; moment = 50; base = 0; value = pos 70; effects = effect_of 50 (neg_ℤ (pos 10)) ∷ effect_of 51 (neg_ℤ (pos 10)) ∷ [] } }
{
    let mut tank = started(alloc, 100, 35, 100, 70);
    add(rt, &mut tank, 50, -10);
    add(rt, &mut tank, 51, -10);
    advance(rt, &mut tank, 50);
    tank
}

// What is at the base's moment counts no more, what is one later does.
#[test]
fn a_base_set_at_50(rt: HostRuntime) {
    let mut tank = drained(&rt, rt.alloc());
    holds(&rt, "at 50", at(&tank, 50) == 60);
    holds(&rt, "at 51", at(&tank, 51) == 50);
    let based = rebase(&rt, &mut tank, 40);
    holds(&rt, "at 50 then", at(&tank, 50) == 40);
    holds(&rt, "at 51 then", at(&tank, 51) == 30);
    holds(&rt, "what came", is_one(based.low.came.as_slice(), 51, 100));
    holds(&rt, "the span", has_low(&tank, 51, 100));
}

#[test]
fn an_effect_that_goes(rt: HostRuntime) {
    let mut tank = drained(&rt, rt.alloc());
    let copy = tank.copy(rt.alloc()).expect(&rt, "memory");
    remove(&rt, &mut tank, 51, -10);
    holds(&rt, "at 51", at(&tank, 51) == 60);
    holds(&rt, "at 51 in the copy", at(&copy, 51) == 50);
}

#[test]
fn a_start_outside_its_limits(rt: HostRuntime) {
    let mut low = started(rt.alloc(), 100, 5, 9, 4);
    holds(&rt, "always low", has_low(&low, 0, 100));
    let raised = add(&rt, &mut low, 10, 6);
    holds(&rt, "low before", is_one(raised.low.came.as_slice(), 0, 10));
    holds(
        &rt,
        "high after",
        is_one(raised.high.came.as_slice(), 10, 100),
    );
    holds(&rt, "enough memory", !low.spoiled());
    holds(&rt, "low spans", is_one(low.low_spans(), 0, 10));
    holds(&rt, "high spans", is_one(low.high_spans(), 10, 100));
    let copy = raised.copy(rt.alloc()).expect(&rt, "memory");
    holds(&rt, "the copy", is_one(copy.low.went.as_slice(), 0, 100));
}

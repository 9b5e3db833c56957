//! What the demands of an activity add to a level by the last moment before the horizon.
ghost use Rattle.std.specs.Prelude.{◌≡◌, ◌≤◌, ◌≤ℤ◌, ◌*ℤ◌, pos, Some, length, slice_get};
ghost use Rattle.pl_detect.specs.Based.{HasBase};
ghost use Rattle.pl_level.specs.Effects.{counted};
ghost use Rattle.pl_model.specs.Checked.{IsLevelLine};
ghost use Rattle.pl_points.specs.Sums.{total};
ghost use Rattle.pl_semantics.specs.Demands.{moment_of_base, since, effects_of, demands_at};
ghost use Rattle.pl_semantics.specs.Whole.{IsWhole};
ghost use Rattle.pl_prefs.specs.Added.{added_by};
ghost use Rattle.pl_prefs.specs.Bounds.{IsWithin, IsSumOf};
ghost use Rattle.pl_prefs.specs.Prefers.{IsWeight};
ghost use Rattle.pl_prefs.specs.Worths.{level_share, while_ahead};

use crate::weights::weighed;
use pl_level::Effect;
use pl_plan::Activity;
use pl_semantics::{Asked, Demand, PlanState};

fn moment_of(base: (i64, i64)) -> u32
    requires { base.0 ≤ℤ pos 10000000 }
    ensures { result ≡ moment_of_base (Some base) }
{
    if base.0 < 0 { 0 } else { base.0 as u32 }
}

// The moment at which the level was told last; 0 where it never was.
fn since(s: &PlanState, line: u32) -> u32
    requires whole { IsWhole s.now }
    requires base { HasBase s.now line 1000000000000 }
    ensures { result ≡ since s.now line }
{
    moment_of(s.bases.get(line))
}

// What an effect adds after the moment of the base and up to another one.
fn counted(base: u32, until: u32, effect: Effect) -> i64
    ensures { result ≡ counted base until effect }
{
    if base < effect.at && effect.at <= until {
        effect.delta
    } else {
        0
    }
}

fn added_by(base: u32, until: u32, line: u32, demand: &Demand) -> i64
    ensures { result ≡ added_by base until line demand.now }
{
    if demand.line != line {
        return 0;
    }
    match demand.asked {
        Asked::Use(_) => 0,
        Asked::Effect(effect) => counted(base, until, effect),
        Asked::Set(_) => 0,
        Asked::Must(_) => 0,
    }
}

// What demands add to a level after the moment of its base and up to another one.
fn added(base: u32, until: u32, line: u32, demands: &[Demand]) -> i128
    requires { length demands.now ≤ 32 }
    ensures value { result ≡ total (counted base until) (effects_of line demands.now) }
    ensures within { IsSumOf 32 result }
{
    let mut sum: i128 = 0;
    for demand in demands {
        sum += i128::from(added_by(base, until, line, demand));
    }
    sum
}

/// What the demands of an activity count for a level that is preferred to be high at the end.
pub(crate) fn level_worth(
    s: &PlanState,
    line: u32,
    weight: i64,
    a: &Activity,
    demands: &[Demand],
) -> i128
    requires whole { IsWhole s.now }
    requires level { IsLevelLine (slice_get s.now.model.timelines line) }
    requires weight { IsWeight weight }
    requires demands { demands.now ≡ demands_at s.now a.now }
    requires few { length demands.now ≤ 32 }
    ensures value { result ≡ while_ahead s.now (weight *ℤ level_share s.now line a.now) }
    ensures within { IsWithin 1 result }
{
    let horizon = s.model.get().horizon;
    if s.moment < horizon {
        weighed(weight, added(since(s, line), horizon - 1, line, demands))
    } else {
        0
    }
}

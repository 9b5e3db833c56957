//! What telemetry told last of a timeline.
ghost use Rattle.std.specs.Prelude.{◌≡◌, ◌≤◌, ◌≤ℤ◌, pos};
ghost use Rattle.pl_semantics.specs.PlanStates.{natural};
ghost use Rattle.pl_semantics.specs.Whole.{IsWhole};
ghost use Rattle.pl_semantics.specs.Demands.{moment_of_base, since, told};
ghost use Rattle.pl_detect.specs.Based.{HasBase};

use pl_semantics::PlanState;

/// The moment of the base: 0 also before any telemetry, as no effect lies at 0.
pub(crate) fn since(s: &PlanState, line: u32) -> u32
    requires whole { IsWhole s.now }
    requires base { HasBase s.now line 1000000000000 }
    ensures value { result ≡ since s.now line }
    ensures past { result ≤ s.now.moment }
{
    moment_of(s.bases.get(line))
}

fn moment_of(base: (i64, i64)) -> u32
    requires { base.0 ≤ℤ pos 10000000 }
    ensures { result ≡ moment_of_base (Some base) }
{
    if base.0 < 0 { 0 } else { base.0 as u32 }
}

/// The value of a level's base.
pub(crate) fn told(s: &PlanState, line: u32) -> i64
    requires { HasBase s.now line 1000000000000 }
    ensures value { result ≡ told s.now line }
    ensures least { pos 0 ≤ℤ result }
    ensures most { result ≤ℤ pos 1000000000000 }
{
    let (_, value) = s.bases.get(line);
    value
}

/// The state that a base tells.
pub(crate) fn told_state(s: &PlanState, line: u32) -> u32
    requires { HasBase s.now line 32 }
    ensures { result ≡ natural (told s.now line) }
{
    let (_, value) = s.bases.get(line);
    value as u32
}

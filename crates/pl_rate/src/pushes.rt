//! Hinges put behind others, for what a run or an effect adds to a level.
ghost use Rattle.std.specs.Prelude.{◌≡◌, ◌≤◌, ◌≤ℤ◌, pos, neg_ℤ, IsSome, Some, OnOk};
ghost use Rattle.pl_facts.specs.Bases.{base_of};
ghost use Rattle.pl_level.specs.Effects.{effect_of, counted};
ghost use Rattle.pl_semantics.specs.Demands.{moment_of_base};
ghost use Rattle.pl_rate.specs.Hinges.{Gains, IsChange, gain_on, run_over, since_of};

use crate::hinge::Hinge;
use pl_facts::Bases;
use std::alloc::AllocError;

fn moment_of(base: (i64, i64)) -> u64
    ensures { result ≡ moment_of_base (Some base) }
{
    if base.0 < 0 { 0 } else { base.0 as u64 }
}

/// The moment of a level's base, or 0 where it was never told.
pub(crate) fn since(bases: &Bases, line: u32) -> u64
    requires { IsSome (base_of line bases.now) }
    ensures { result ≡ since_of bases.now line }
{
    moment_of(bases.get(line))
}

/// A change for each moment after one and up to another: the slope changes there and back.
pub(crate) fn push_run(
    hinges: &mut Vec<Hinge>,
    line: u32,
    from: u64,
    end: u32,
    change: i64,
) -> Result<(), AllocError>
    requires { IsChange change }
    ensures { OnOk result (Gains hinges.old.items hinges.new.items (gain_on line (run_over from end change))) }
{
    if from >= u64::from(end) {
        return Ok(());
    }
    hinges.push(Hinge {
        line,
        moment: from as u32,
        jump: 0,
        slope: change,
    })?;
    hinges.push(Hinge {
        line,
        moment: end,
        jump: 0,
        slope: -change,
    })?;
    Ok(())
}

/// An effect, unless it lies at the moment of the base or before.
pub(crate) fn push_jump(
    hinges: &mut Vec<Hinge>,
    bases: &Bases,
    line: u32,
    at: u32,
    delta: i64,
) -> Result<(), AllocError>
    requires small { (neg_ℤ (pos 1000000000) ≤ℤ delta) × (delta ≤ℤ pos 1000000000) }
    requires based { IsSome (base_of line bases.now) }
    ensures { OnOk result (Gains hinges.old.items hinges.new.items (gain_on line (λ t. counted (since_of bases.now line) t (effect_of at delta)))) }
{
    if u64::from(at) <= since(bases, line) {
        return Ok(());
    }
    hinges.push(Hinge {
        line,
        moment: at,
        jump: delta,
        slope: 0,
    })?;
    Ok(())
}

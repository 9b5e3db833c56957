//! Conflicts of spans, of broken musts, and of steps that are not allowed.
ghost use Rattle.std.specs.Prelude.{◌≡◌, ◌++◌, map, OnOk};
ghost use Rattle.pl_semantics.specs.Timelines.{outside, start_at, unmet_must, bad_step};

use pl_conflict::{Code, Conflict};
use pl_points::Span;
use pl_semantics::PlanState;
use pl_state::{BadSet, BrokenMust};
use std::alloc::AllocError;

fn outside(code: Code, line: u32, span: &Span) -> Conflict
    ensures { result ≡ outside code line span.now }
{
    Conflict {
        from: span.from,
        code,
        subject: line,
        detail: 0,
        a: span.from,
        b: span.to,
    }
}

/// Appends the conflict of each span.
pub fn add_outside(
    code: Code,
    line: u32,
    spans: &[Span],
    out: &mut Vec<Conflict>,
) -> Result<(), AllocError>
    ensures { OnOk result (out.new.items ≡ out.old.items ++ map (outside code line) spans.now) }
{
    for span in spans {
        out.push(outside(code, line, span))?;
    }
    Ok(())
}

fn start_at(s: &PlanState, id: u32) -> u32
    ensures { result ≡ start_at s.now id }
{
    match s.plan.get(id) {
        Some(a) => a.start,
        None => 0,
    }
}

fn unmet_must(s: &PlanState, must: &BrokenMust) -> Conflict
    ensures { result ≡ unmet_must s.now must.now }
{
    Conflict {
        from: start_at(s, must.id),
        code: Code::Must,
        subject: must.id,
        detail: must.index,
        a: must.from,
        b: must.to,
    }
}

/// Appends the conflict of each broken must.
pub fn add_musts(
    s: &PlanState,
    musts: &[BrokenMust],
    out: &mut Vec<Conflict>,
) -> Result<(), AllocError>
    ensures { OnOk result (out.new.items ≡ out.old.items ++ map (unmet_must s.now) musts.now) }
{
    for must in musts {
        out.push(unmet_must(s, must))?;
    }
    Ok(())
}

fn bad_step(s: &PlanState, step: &BadSet) -> Conflict
    ensures { result ≡ bad_step s.now step.now }
{
    Conflict {
        from: start_at(s, step.id),
        code: Code::BadStep,
        subject: step.id,
        detail: step.index,
        a: step.at,
        b: 0,
    }
}

/// Appends the conflict of each step that is not allowed.
pub fn add_bad_steps(
    s: &PlanState,
    steps: &[BadSet],
    out: &mut Vec<Conflict>,
) -> Result<(), AllocError>
    ensures { OnOk result (out.new.items ≡ out.old.items ++ map (bad_step s.now) steps.now) }
{
    for step in steps {
        out.push(bad_step(s, step))?;
    }
    Ok(())
}

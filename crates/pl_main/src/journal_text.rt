ghost use Rattle.std.specs.Prelude.{◌≡◌, ◌≤◌, IfOk, IfSome, IsErrOf, false, length};
ghost use Rattle.pl_io.specs.Faults.{Rose};
ghost use Rattle.pl_report.specs.Verdicts.{verdict_line};
ghost use Rattle.pl_main.specs.Forewords.{FitsTold};
ghost use Rattle.pl_main.specs.Replays.{IsTextOf};
ghost use Rattle.pl_main.specs.Readings.{WritesAs, WritesRight, WritesJudged};

use crate::judgement::Judgement;
use crate::told::Told;
use pl_input::Halt;
use pl_io::{Sink, put};
use pl_machine::Machine;
use pl_model::Model;
use pl_replay::Verdict;
use pl_report::{flex_text, forecast_text, improvement_text, report, verdict_line};
use std::alloc::{AllocError, Global};

/// Writes a text, which says this of a journal.
#[tactic(auto, using(crate::proofs::Replaying::put_stops))]
pub fn write_text<O: Sink>(
    out: &mut O,
    text: &[u8],
    judgement: Judgement,
) -> Result<Judgement, Halt>
    ensures text { WritesAs judgement text.now (O.held out.old) result (O.held out.new) }
    ensures unread { IsErrOf result Halt.Read → ⊥ }
    ensures write { IsErrOf result Halt.Write → Rose (O.faults out.old) (O.faults out.new) }
    ensures later { O.faults out.old ≤ O.faults out.new }
{
    put(out, text)?;
    Ok(judgement)
}

/// What is written of a legal journal.
fn legal_text(
    alloc: Global,
    what: &Told,
    verdict: &Verdict,
    machine: &Machine,
) -> Result<Vec<u8>, AllocError>
    requires unspoiled { machine.now.spoiled ≡ false }
    requires verdict { verdict.now ≡ Verdict.Legal (length machine.now.log) machine.now.world.done }
    requires fits { FitsTold machine.now.model what.now }
    ensures { IfOk result (λ text. IsTextOf what.now machine.now text.items) }
{
    match what {
        Told::Verdict => verdict_line(alloc, machine.model(), verdict),
        Told::Report => report(alloc, machine),
        Told::Flex { id } => flex_text(alloc, machine, *id),
        Told::Forecast(rates) => forecast_text(alloc, machine, rates.as_slice()),
        Told::Improve { steps, prefers } => {
            improvement_text(alloc, machine, prefers.as_slice(), *steps)
        }
    }
}

#[tactic(auto, using(crate::proofs::Replaying::no_memory_right, crate::proofs::Replaying::right_written))]
fn write_legal<O: Sink>(
    alloc: Global,
    what: &Told,
    verdict: &Verdict,
    machine: &Machine,
    out: &mut O,
) -> Result<Judgement, Halt>
    requires unspoiled { machine.now.spoiled ≡ false }
    requires verdict { verdict.now ≡ Verdict.Legal (length machine.now.log) machine.now.world.done }
    requires fits { FitsTold machine.now.model what.now }
    ensures text { WritesRight what.now machine.now (O.held out.old) result (O.held out.new) }
    ensures unread { IsErrOf result Halt.Read → ⊥ }
    ensures write { IsErrOf result Halt.Write → Rose (O.faults out.old) (O.faults out.new) }
    ensures later { O.faults out.old ≤ O.faults out.new }
{
    let text = legal_text(alloc, what, verdict, machine)?;
    write_text(out, text.as_slice(), Judgement::Right)
}

#[tactic(auto, using(crate::proofs::Replaying::no_memory))]
fn write_wrong<O: Sink>(
    alloc: Global,
    model: &Model,
    verdict: &Verdict,
    out: &mut O,
) -> Result<Judgement, Halt>
    ensures text { WritesAs Judgement.Wrong (verdict_line model.now verdict.now) (O.held out.old) result (O.held out.new) }
    ensures unread { IsErrOf result Halt.Read → ⊥ }
    ensures write { IsErrOf result Halt.Write → Rose (O.faults out.old) (O.faults out.new) }
    ensures later { O.faults out.old ≤ O.faults out.new }
{
    let line = verdict_line(alloc, model, verdict)?;
    write_text(out, line.as_slice(), Judgement::Wrong)
}

/// Writes what is to be said of a journal. The machine stands behind a legal one, and there is none of a wrong one.
pub fn write_judged<O: Sink>(
    alloc: Global,
    what: &Told,
    model: &Model,
    verdict: Verdict,
    machine: Option<Machine>,
    out: &mut O,
) -> Result<Judgement, Halt>
    requires unspoiled { IfSome machine (λ machine. machine.spoiled ≡ false) }
    requires verdict { IfSome machine (λ machine. verdict ≡ Verdict.Legal (length machine.log) machine.world.done) }
    requires fits { IfSome machine (λ machine. FitsTold machine.model what.now) }
    ensures text { WritesJudged what.now model.now verdict machine (O.held out.old) result (O.held out.new) }
    ensures unread { IsErrOf result Halt.Read → ⊥ }
    ensures write { IsErrOf result Halt.Write → Rose (O.faults out.old) (O.faults out.new) }
    ensures later { O.faults out.old ≤ O.faults out.new }
{
    match machine {
        Some(machine) => write_legal(alloc, what, &verdict, &machine, out),
        None => write_wrong(alloc, model, &verdict, out),
    }
}

//! The whole run.
ghost use Rattle.std.specs.Prelude.{◌≡◌, ◌≤◌, false, length, None, IsErrOf, IfOk, vec_len};
ghost use Rattle.std.specs.List.{All};
ghost use Rattle.pl_io.specs.Faults.{Rose};
ghost use Rattle.pl_machine.specs.Legal.{Legal, world_of};
ghost use Rattle.pl_input.specs.Places.{place_of};
ghost use Rattle.pl_marks.specs.Authors.{IsAuthor};
ghost use Rattle.pl_pair.specs.Duties.{begun_of, author_of};
ghost use Rattle.pl_pair.specs.Runs.{PairRun, RunsTeam, EndsWith};

use crate::duty::Duty;
use crate::ended::Ended;
use crate::endings::ended;
use crate::pairing::{Remains, run_workers};
use pl_input::Halt;
use pl_io::{LineReader, Sink, Source};
use pl_lists::Copied;
use pl_locked::SharedPlan;
use pl_machine::Machine;
use pl_marks::Marks;
use pl_model::Model;
use pl_turn::Gate;
use std::alloc::{AllocError, Global};
use std::sync::Wait;
use std::sync::atomic::AtomicBool;
use std::thread::Threads;

/// A flag for each worker, set where the start of its thread is refused.
fn flags_for(alloc: Global, count: usize) -> Result<Vec<AtomicBool>, AllocError>
    ensures { IfOk result (λ flags. vec_len flags ≡ count) }
{
    let mut flags = Vec::with_capacity(alloc, count)?;
    for _ in 0..count {
        flags.push(AtomicBool::new(false))?;
    }
    Ok(flags)
}

/// A machine and its marks, where the run came to its end.
fn ended_with(answer: Result<(), Halt>, machine: Machine, marks: Marks) -> Result<Ended, Halt>
    ensures { EndsWith answer machine marks result }
{
    match answer {
        Ok(()) => Ok(Ended {
            machine,
            marks: marks.into_vec(),
        }),
        Err(halt) => Err(halt),
    }
}

/// A run over a model that is the machine's.
#[tactic(auto, using(crate::proofs::Running::back_none, crate::proofs::Running::first_pass, crate::proofs::Running::begun_first))]
fn run_over<R: Threads + Wait + Sync, S: Source, O: Sink, G: Gate + Sync>(
    rt: &R,
    alloc: Global,
    machine: Machine,
    model: &Model,
    duties: &[Duty],
    gate: &G,
    lines: &mut LineReader,
    src: &mut S,
    out: &mut O,
) -> Result<Ended, Halt>
    requires legal { Legal machine.model machine.log }
    requires going { (world_of machine.model machine.log).done ≡ false }
    requires model { model.now ≡ machine.model }
    requires begun { All (λ d. (begun_of d ≤ length machine.log) × IsAuthor (author_of d)) duties.now }
    requires few { length duties.now ≤ 9 }
    requires limit { lines.old.limit ≤ 4096 }
    ensures run { RunsTeam duties.now machine (place_of lines.old (S.left src.old)) (O.held out.old) result
        (place_of lines.new (S.left src.new)) (O.held out.new) }
    ensures read { IsErrOf result Halt.Read → lines.old.failed ≡ None → Rose (S.faults src.old) (S.faults src.new) }
    ensures write { IsErrOf result Halt.Write → Rose (O.faults out.old) (O.faults out.new) }
    ensures later { O.faults out.old ≤ O.faults out.new }
{
    let Ok(refused) = flags_for(alloc, duties.len()) else {
        return Err(Halt::Memory);
    };
    let Ok((plan, pass)) = SharedPlan::new(alloc, machine) else {
        return Err(Halt::Memory);
    };
    let Some(remains) = run_workers(
        rt, alloc, &plan, gate, model, pass, duties, &refused, lines, src, out,
    ) else {
        return Err(Halt::Memory);
    };
    let Remains { pass, fed, met } = remains;
    let answer = ended(&fed, met);
    let (machine, marks) = plan.close_signed(pass);
    ended_with(answer, machine, marks)
}

/// Runs workers for these duties in threads of their own, feeds them the messages that a reader has left, and writes the lines of the
/// whole log, those of the entries handed in first. It waits for its threads. A run that comes to its end hands its machine back, with the
/// marks of its entries.
#[tactic(auto, using(crate::proofs::Running::back_none, crate::proofs::Running::not_done))]
pub fn run_team<R: Threads + Wait + Sync, I: Source, O: Sink, G: Gate + Sync>(
    rt: &R,
    alloc: Global,
    machine: Machine,
    duties: &[Duty],
    gate: &G,
    lines: &mut LineReader,
    src: &mut I,
    out: &mut O,
) -> Result<Ended, Halt>
    requires going { machine.world.done ≡ false }
    requires begun { All (λ d. (begun_of d ≤ length machine.log) × IsAuthor (author_of d)) duties.now }
    requires few { length duties.now ≤ 9 }
    requires limit { lines.old.limit ≤ 4096 }
    ensures run { RunsTeam duties.now machine (place_of lines.old (I.left src.old)) (O.held out.old) result
        (place_of lines.new (I.left src.new)) (O.held out.new) }
    ensures read { IsErrOf result Halt.Read → (lines.old.failed ≡ None) → Rose (I.faults src.old) (I.faults src.new) }
    ensures write { IsErrOf result Halt.Write → Rose (O.faults out.old) (O.faults out.new) }
    ensures later { O.faults out.old ≤ O.faults out.new }
{
    let _log = machine.log();
    match machine.model().copy(alloc) {
        Ok(model) => run_over(rt, alloc, machine, &model, duties, gate, lines, src, out),
        Err(_) => Err(Halt::Memory),
    }
}

/// Runs a planner, with a chooser of this seed, and an executive in threads of their own, feeds them the messages that a reader has left,
/// and writes the lines of the whole log, those of the entries handed in first. It waits for its threads.
#[tactic(auto, using(crate::proofs::Running::begun_pair, crate::proofs::Running::pair_back))]
pub fn run_pair<R: Threads + Wait + Sync, I: Source, O: Sink, G: Gate + Sync>(
    rt: &R,
    alloc: Global,
    machine: Machine,
    seed: u64,
    gate: &G,
    lines: &mut LineReader,
    src: &mut I,
    out: &mut O,
) -> Result<(), Halt>
    requires going { machine.world.done ≡ false }
    requires limit { lines.old.limit ≤ 4096 }
    ensures run { PairRun seed machine (place_of lines.old (I.left src.old)) (O.held out.old) result
        (place_of lines.new (I.left src.new)) (O.held out.new) }
    ensures read { IsErrOf result Halt.Read → (lines.old.failed ≡ None) → Rose (I.faults src.old) (I.faults src.new) }
    ensures write { IsErrOf result Halt.Write → Rose (O.faults out.old) (O.faults out.new) }
{
    let duties = [Duty::Repair(1, seed, machine.entries()), Duty::Execute];
    match run_team(rt, alloc, machine, &duties, gate, lines, src, out) {
        Ok(_) => Ok(()),
        Err(halt) => Err(halt),
    }
}

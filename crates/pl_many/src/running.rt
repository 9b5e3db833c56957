//! The whole run of a crew.
ghost use Rattle.std.specs.Prelude.{◌≡◌, ◌≤◌, false, None, IsErrOf, IfOk};
ghost use Rattle.pl_io.specs.Faults.{Rose};
ghost use Rattle.pl_input.specs.Places.{place_of};
ghost use Rattle.pl_many.specs.CrewRuns.{CrewRun, crew_of};

use crate::lines::write_tallies;
use pl_input::Halt;
use pl_io::{LineReader, Sink, Source};
use pl_machine::Machine;
use pl_pair::{Duty, run_team};
use pl_turn::Gate;
use std::alloc::{AllocError, Global};
use std::sync::Wait;
use std::thread::Threads;

/// An executive, and so many planners by number, hired where there were so many entries. The chooser of each planner is made from the
/// seed and its number added up.
#[tactic(auto, using(crate::proofs::Crewing::duties_more))]
fn duties(alloc: Global, planners: u8, seed: u64, begun: u32) -> Result<Vec<Duty>, AllocError>
    requires planners { planners ≤ 8 }
    requires seed { seed ≤ 999999999999999999 }
    ensures { IfOk result (λ duties. duties.items ≡ crew_of planners seed begun) }
{
    let mut duties = Vec::with_capacity(alloc, 9)?;
    duties.push(Duty::Execute)?;
    for before in 0..planners {
        let number = before + 1;
        duties.push(Duty::Repair(number, seed + u64::from(number), begun))?;
    }
    Ok(duties)
}

/// Runs an executive and planners in threads of their own, feeds them the messages that a reader has left, and writes the lines of the
/// whole log, and behind them a line for each planner. It waits for its threads.
#[tactic(auto, using(pl_machine::proofs::ShortLogs::log_is_short, crate::proofs::Crewing::few_marks, crate::proofs::Crewing::crew_halts))]
pub fn run_crew<R: Threads + Wait + Sync, I: Source, O: Sink, G: Gate + Sync>(
    rt: &R,
    alloc: Global,
    machine: Machine,
    planners: u8,
    seed: u64,
    gate: &G,
    lines: &mut LineReader,
    src: &mut I,
    out: &mut O,
) -> Result<(), Halt>
    requires planners { (2 ≤ planners) × (planners ≤ 8) }
    requires seed { seed ≤ 999999999999999999 }
    requires going { machine.world.done ≡ false }
    requires limit { lines.old.limit ≤ 4096 }
    ensures run { CrewRun planners seed machine (place_of lines.old (I.left src.old)) (O.held out.old) result
        (place_of lines.new (I.left src.new)) (O.held out.new) }
    ensures read { IsErrOf result Halt.Read → (lines.old.failed ≡ None) → Rose (I.faults src.old) (I.faults src.new) }
    ensures write { IsErrOf result Halt.Write → Rose (O.faults out.old) (O.faults out.new) }
{
    let log = machine.log();
    let Ok(duties) = duties(alloc, planners, seed, log.len() as u32) else {
        return Err(Halt::Memory);
    };
    match run_team(rt, alloc, machine, &duties, gate, lines, src, out) {
        Ok(ended) => {
            let entries = ended.machine.log().entries_from(alloc, 0)?;
            write_tallies(alloc, planners, &ended.marks, entries.as_slice(), out)
        }
        Err(halt) => Err(halt),
    }
}

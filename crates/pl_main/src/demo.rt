ghost use Rattle.std.specs.Prelude.{◌≡◌, ◌≤◌, None, Some, IsErrOf, IfOk, false};
ghost use Rattle.pl_io.specs.Faults.{Rose};
ghost use Rattle.pl_model.specs.Checked.{IsChecked};
ghost use Rattle.pl_input.specs.Places.{place_of};
ghost use Rattle.pl_main.specs.Demos.{summary_line, Shows, DemoPlays, KeepsModel, ModelShows, TextShows};

use crate::check::push_counted;
use crate::judging::model_of;
use crate::outcome::Outcome;
use crate::play::play;
use crate::whole::{LINE_LIMIT, TOTAL_LIMIT, program_options};
use pl_check::Accepted;
use pl_choose::Least;
use pl_input::{Halt, Head, halt_of, read_head};
use pl_io::{LineReader, Sink, SureSink, SureSource, put};
use pl_machine::Machine;
use pl_model::Model;
use pl_report::demo_input;
use std::alloc::{AllocError, Global};
use std::mem::forget;
use std::sync::Arc;

const TURNS: u32 = 50;

/// The line that says how a demonstration ended.
fn summary_line(alloc: Global, goals: u32, machine: &Machine) -> Result<Vec<u8>, AllocError>
    requires { machine.now.spoiled ≡ false }
    ensures { IfOk result (λ line. line.items ≡ summary_line goals machine.now.log machine.now.world) }
{
    let board = machine.board();
    let conflicts = board.conflicts().list(alloc)?;
    let mut line = Vec::new(alloc);
    push_counted(&mut line, b"demo ", goals as usize)?;
    push_counted(&mut line, b" entries ", machine.log().len())?;
    push_counted(&mut line, b" activities ", board.plan().len() as usize)?;
    push_counted(&mut line, b" dispatched ", machine.dispatched().len())?;
    push_counted(&mut line, b" conflicts ", conflicts.as_slice().len())?;
    line.push(b'\n')?;
    Ok(line)
}

/// Answers the messages behind a model. The journal's lines go nowhere.
#[tactic(auto, using(crate::proofs::Showing::out_stops, crate::proofs::Showing::never_rose))]
fn play_out(
    alloc: Global,
    model: Model,
    lines: &mut LineReader,
    src: &mut SureSource,
) -> Result<Machine, Halt>
    requires checked { IsChecked model }
    requires limit { lines.old.limit ≡ 4096 }
    requires working { lines.old.failed ≡ None }
    ensures plays { DemoPlays model (place_of lines.old (Some src.old)) result
        (place_of lines.new (Some src.new)) }
    ensures write { IsErrOf result Halt.Write → ⊥ }
{
    let model = Arc::new(alloc, model)?;
    let mut machine = Machine::fresh(alloc, model, program_options(TURNS))?;
    let mut journal = SureSink::new(alloc)?;
    let mut planner = Least;
    let played = play(alloc, &mut machine, &mut planner, lines, src, &mut journal);
    let _log = machine.log();
    match played {
        Ok(()) => Ok(machine),
        Err(halt) => Err(halt),
    }
}

#[tactic(auto, using(crate::proofs::Showing::model_stops))]
fn show_model<O: Sink>(
    alloc: Global,
    goals: u32,
    model: Model,
    lines: &mut LineReader,
    src: &mut SureSource,
    out: &mut O,
) -> Result<Outcome, Halt>
    requires checked { IsChecked model }
    requires limit { lines.old.limit ≡ 4096 }
    requires working { lines.old.failed ≡ None }
    ensures shows { ModelShows goals model (place_of lines.old (Some src.old)) (O.held out.old) result
        (place_of lines.new (Some src.new)) (O.held out.new) }
    ensures write { IsErrOf result Halt.Write → Rose (O.faults out.old) (O.faults out.new) }
{
    let machine = play_out(alloc, model, lines, src)?;
    let line = summary_line(alloc, goals, &machine)?;
    // The run ends here: the memory of the machine goes with the process, not piece by piece.
    forget(machine);
    put(out, line.as_slice())?;
    Ok(Outcome::Done)
}

#[tactic(auto, using(crate::proofs::Showing::kept_passes, crate::proofs::Showing::text_shows))]
fn show_text<O: Sink>(
    alloc: Global,
    goals: u32,
    kept: Option<Vec<u8>>,
    lines: &mut LineReader,
    src: &mut SureSource,
    out: &mut O,
) -> Result<Outcome, Halt>
    requires keeps { KeepsModel kept }
    requires limit { lines.old.limit ≡ 4096 }
    requires working { lines.old.failed ≡ None }
    ensures shows { TextShows goals kept (place_of lines.old (Some src.old)) (O.held out.old) result
        (place_of lines.new (Some src.new)) (O.held out.new) }
    ensures write { IsErrOf result Halt.Write → Rose (O.faults out.old) (O.faults out.new) }
{
    match model_of(alloc, &kept)? {
        Accepted::Refused(_line) => unreachable!(),
        Accepted::Model(model) => show_model(alloc, goals, model, lines, src, out),
    }
}

/// Runs the demonstration's input, and writes one line that says how it ended.
#[tactic(auto, using(crate::proofs::Showing::begun_shows, crate::proofs::Showing::has_begin, crate::proofs::Showing::head_shows, crate::proofs::Showing::never_rose))]
pub fn demo<O: Sink>(alloc: Global, goals: u32, out: &mut O) -> Result<Outcome, Halt>
    requires { (1 ≤ goals) × (goals ≤ 4000) }
    ensures shows { Shows goals (O.held out.old) (O.held out.new) result }
    ensures write { IsErrOf result Halt.Write → Rose (O.faults out.old) (O.faults out.new) }
{
    let text = demo_input(alloc, goals)?;
    let mut src = SureSource::new(alloc, text.as_slice())?;
    let mut lines = LineReader::new(alloc, LINE_LIMIT, TOTAL_LIMIT)?;
    match read_head(alloc, &mut lines, &mut src) {
        Err(fault) => Err(halt_of(fault)),
        Ok(Head::NoBegin) => unreachable!(),
        Ok(Head::Text(kept)) => show_text(alloc, goals, kept, &mut lines, &mut src, out),
    }
}

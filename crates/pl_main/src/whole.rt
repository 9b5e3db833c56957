ghost use Rattle.std.specs.Prelude.{◌≡◌, ◌≤◌, None, IfOk, IsErrOf};
ghost use Rattle.pl_io.specs.Faults.{Rose};
ghost use Rattle.pl_model.specs.Checked.{IsChecked};
ghost use Rattle.pl_input.specs.Places.{place_of};
ghost use Rattle.pl_main.specs.Runs.{fresh_state, ModelRuns, TextRuns};
ghost use Rattle.pl_main.specs.Top.{program_options};
ghost use Rattle.pl_main.specs.Endings.{EndedAsKnown};
ghost use Rattle.pl_main.specs.RunKinds.{run_by, solo_run};

use crate::judging::{NO_BEGIN, model_of, refuse};
use crate::logs::write_log;
use crate::outcome::Outcome;
use crate::planner::Planner;
use crate::play::play;
use pl_check::Accepted;
use pl_choose::Least;
use pl_facts::Options;
use pl_input::{Halt, Head, halt_of, read_head};
use pl_io::{LineReader, Sink, Source};
use pl_machine::Machine;
use pl_model::Model;
use std::alloc::{AllocError, Global};
use std::sync::Arc;

/// The most bytes of a line of the input, without its newline.
pub const LINE_LIMIT: u32 = 4096;

/// The most bytes of the input.
pub const TOTAL_LIMIT: u64 = 1_073_741_824;

/// The limits of a run of the program, with so many repairs a round.
pub fn program_options(turns: u32) -> Options
    ensures { result ≡ program_options turns }
{
    Options {
        turns,
        live: 10_000,
        goals: 20_000,
        entries: 250_000,
    }
}

/// A machine over a model, with the limits of the program.
pub fn open_machine(alloc: Global, turns: u32, model: Model) -> Result<Machine, AllocError>
    requires checked { IsChecked model }
    requires turns { (1 ≤ turns) × (turns ≤ 1000) }
    ensures { IfOk result (λ machine. machine ≡ fresh_state turns model) }
{
    let model = Arc::new(alloc, model)?;
    let machine = Machine::fresh(alloc, model, program_options(turns))?;
    Ok(machine)
}

/// Opens a journal over a model and answers the messages.
#[tactic(auto, using(crate::proofs::Ending::run_stops, crate::proofs::Ending::run_unopened, crate::proofs::Ending::run_unwritten))]
fn run_model<P: Planner, S: Source, O: Sink>(
    alloc: Global,
    turns: u32,
    planner: &mut P,
    model: Model,
    lines: &mut LineReader,
    src: &mut S,
    out: &mut O,
) -> Result<(), Halt>
    requires checked { IsChecked model }
    requires turns { (1 ≤ turns) × (turns ≤ 1000) }
    requires limit { lines.old.limit ≡ 4096 }
    requires working { lines.old.failed ≡ None }
    ensures run { ModelRuns P.rule turns model (place_of lines.old (S.left src.old)) (O.held out.old) result
        (place_of lines.new (S.left src.new)) (O.held out.new) }
    ensures read { IsErrOf result Halt.Read → Rose (S.faults src.old) (S.faults src.new) }
    ensures write { IsErrOf result Halt.Write → Rose (O.faults out.old) (O.faults out.new) }
{
    let mut machine = open_machine(alloc, turns, model)?;
    write_log(alloc, &machine, 0, out)?;
    let played = play(alloc, &mut machine, planner, lines, src, out);
    let _log = machine.log();
    match played {
        Ok(()) => Ok(()),
        Err(halt) => Err(halt),
    }
}

#[tactic(auto, using(crate::proofs::Texting::text_unjudged, crate::proofs::Texting::text_refused, crate::proofs::Texting::text_ran, crate::proofs::Texting::text_stops))]
fn run_text<P: Planner, S: Source, O: Sink>(
    alloc: Global,
    turns: u32,
    planner: &mut P,
    kept: Option<Vec<u8>>,
    lines: &mut LineReader,
    src: &mut S,
    out: &mut O,
) -> Result<Outcome, Halt>
    requires turns { (1 ≤ turns) × (turns ≤ 1000) }
    requires limit { lines.old.limit ≡ 4096 }
    requires working { lines.old.failed ≡ None }
    ensures run { TextRuns (ModelRuns P.rule turns) kept (place_of lines.old (S.left src.old)) (O.held out.old) result
        (place_of lines.new (S.left src.new)) (O.held out.new) }
    ensures read { IsErrOf result Halt.Read → Rose (S.faults src.old) (S.faults src.new) }
    ensures write { IsErrOf result Halt.Write → Rose (O.faults out.old) (O.faults out.new) }
{
    match model_of(alloc, &kept)? {
        Accepted::Refused(line) => refuse(out, line.as_slice()),
        Accepted::Model(model) => match run_model(alloc, turns, planner, model, lines, src, out) {
            Ok(()) => Ok(Outcome::Done),
            Err(halt) => Err(halt),
        },
    }
}

/// Reads a model and its messages, plans them by a planner, and writes the journal.
#[tactic(auto, using(crate::proofs::Running::no_reader, crate::proofs::Running::head_run))]
pub fn plan<P: Planner, S: Source, O: Sink>(
    alloc: Global,
    turns: u32,
    planner: &mut P,
    src: &mut S,
    out: &mut O,
) -> Result<Outcome, Halt>
    requires turns { (1 ≤ turns) × (turns ≤ 1000) }
    ensures ran { EndedAsKnown (run_by P.rule turns) (S.left src.old) (S.left src.new) (O.held out.old) (O.held out.new)
        result }
    ensures read { IsErrOf result Halt.Read → Rose (S.faults src.old) (S.faults src.new) }
    ensures write { IsErrOf result Halt.Write → Rose (O.faults out.old) (O.faults out.new) }
{
    let mut lines = LineReader::new(alloc, LINE_LIMIT, TOTAL_LIMIT)?;
    match read_head(alloc, &mut lines, src) {
        Err(fault) => Err(halt_of(fault)),
        Ok(Head::NoBegin) => refuse(out, NO_BEGIN),
        Ok(Head::Text(kept)) => run_text(alloc, turns, planner, kept, &mut lines, src, out),
    }
}

/// Plans by the chooser `Least`.
pub fn solo<S: Source, O: Sink>(
    alloc: Global,
    turns: u32,
    src: &mut S,
    out: &mut O,
) -> Result<Outcome, Halt>
    requires turns { (1 ≤ turns) × (turns ≤ 1000) }
    ensures ran { EndedAsKnown (solo_run turns) (S.left src.old) (S.left src.new) (O.held out.old) (O.held out.new)
        result }
    ensures read { IsErrOf result Halt.Read → Rose (S.faults src.old) (S.faults src.new) }
    ensures write { IsErrOf result Halt.Write → Rose (O.faults out.old) (O.faults out.new) }
{
    let mut planner = Least;
    plan(alloc, turns, &mut planner, src, out)
}

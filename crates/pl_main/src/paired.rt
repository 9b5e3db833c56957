//! A run of an executive and planners in threads of their own.
ghost use Rattle.std.specs.Prelude.{◌≡◌, ◌≤◌, false, None, IsErrOf};
ghost use Rattle.pl_io.specs.Faults.{Rose};
ghost use Rattle.pl_model.specs.Checked.{IsChecked};
ghost use Rattle.pl_input.specs.Places.{place_of};
ghost use Rattle.pl_main.specs.Endings.{EndedAsKnown};
ghost use Rattle.pl_main.specs.RunKinds.{run_of};
ghost use Rattle.pl_main.specs.Runs.{RunsAs, IsTeam, ModelRunsAs, TextRuns};

use crate::command::Team;
use crate::judging::{NO_BEGIN, model_of, refuse};
use crate::outcome::Outcome;
use crate::whole::{LINE_LIMIT, TOTAL_LIMIT, open_machine};
use pl_check::Accepted;
use pl_input::{Halt, Head, halt_of, read_head};
use pl_io::{LineReader, Sink, Source};
use pl_machine::Machine;
use pl_many::run_crew;
use pl_model::Model;
use pl_pair::run_pair;
use pl_turn::Gate;
use std::alloc::Global;
use std::sync::Wait;
use std::thread::Threads;

/// Has the messages answered by a team.
fn run_as<R: Threads + Wait + Sync, S: Source, O: Sink, G: Gate + Sync>(
    rt: &R,
    alloc: Global,
    team: Team,
    machine: Machine,
    gate: &G,
    lines: &mut LineReader,
    src: &mut S,
    out: &mut O,
) -> Result<(), Halt>
    requires going { machine.world.done ≡ false }
    requires team { IsTeam team }
    requires limit { lines.old.limit ≤ 4096 }
    ensures run { RunsAs team machine (place_of lines.old (S.left src.old)) (O.held out.old) result
        (place_of lines.new (S.left src.new)) (O.held out.new) }
    ensures read { IsErrOf result Halt.Read → lines.old.failed ≡ None → Rose (S.faults src.old) (S.faults src.new) }
    ensures write { IsErrOf result Halt.Write → Rose (O.faults out.old) (O.faults out.new) }
{
    match team {
        Team::Pair { seed } => run_pair(rt, alloc, machine, seed, gate, lines, src, out),
        Team::Crew { planners, seed } => run_crew(
            rt, alloc, machine, planners, seed, gate, lines, src, out,
        ),
    }
}

/// Opens a journal over a model, and has the messages answered.
#[tactic(auto, using(crate::proofs::Crewing::none_ran))]
fn run_model<R: Threads + Wait + Sync, S: Source, O: Sink, G: Gate + Sync>(
    rt: &R,
    alloc: Global,
    turns: u32,
    team: Team,
    model: Model,
    gate: &G,
    lines: &mut LineReader,
    src: &mut S,
    out: &mut O,
) -> Result<(), Halt>
    requires checked { IsChecked model }
    requires turns { (1 ≤ turns) × (turns ≤ 1000) }
    requires team { IsTeam team }
    requires limit { lines.old.limit ≡ 4096 }
    requires working { lines.old.failed ≡ None }
    ensures run { ModelRunsAs team turns model (place_of lines.old (S.left src.old)) (O.held out.old) result
        (place_of lines.new (S.left src.new)) (O.held out.new) }
    ensures read { IsErrOf result Halt.Read → Rose (S.faults src.old) (S.faults src.new) }
    ensures write { IsErrOf result Halt.Write → Rose (O.faults out.old) (O.faults out.new) }
{
    match open_machine(alloc, turns, model) {
        Ok(machine) => run_as(rt, alloc, team, machine, gate, lines, src, out),
        Err(_) => Err(Halt::Memory),
    }
}

#[tactic(auto, using(crate::proofs::Texting::text_unjudged, crate::proofs::Texting::text_refused, crate::proofs::Texting::text_ran, crate::proofs::Texting::text_stops))]
fn run_text<R: Threads + Wait + Sync, S: Source, O: Sink, G: Gate + Sync>(
    rt: &R,
    alloc: Global,
    turns: u32,
    team: Team,
    kept: Option<Vec<u8>>,
    gate: &G,
    lines: &mut LineReader,
    src: &mut S,
    out: &mut O,
) -> Result<Outcome, Halt>
    requires turns { (1 ≤ turns) × (turns ≤ 1000) }
    requires team { IsTeam team }
    requires limit { lines.old.limit ≡ 4096 }
    requires working { lines.old.failed ≡ None }
    ensures run { TextRuns (ModelRunsAs team turns) kept (place_of lines.old (S.left src.old)) (O.held out.old) result
        (place_of lines.new (S.left src.new)) (O.held out.new) }
    ensures read { IsErrOf result Halt.Read → Rose (S.faults src.old) (S.faults src.new) }
    ensures write { IsErrOf result Halt.Write → Rose (O.faults out.old) (O.faults out.new) }
{
    match model_of(alloc, &kept)? {
        Accepted::Refused(line) => refuse(out, line.as_slice()),
        Accepted::Model(model) => match run_model(
            rt, alloc, turns, team, model, gate, lines, src, out,
        ) {
            Ok(()) => Ok(Outcome::Done),
            Err(halt) => Err(halt),
        },
    }
}

/// Reads a model, and has its messages answered by a team in threads of its own, while the journal is written. It waits for its
/// threads.
#[tactic(auto, using(crate::proofs::Running::no_reader, crate::proofs::Running::head_run))]
pub fn paired<R: Threads + Wait + Sync, S: Source, O: Sink, G: Gate + Sync>(
    rt: &R,
    alloc: Global,
    turns: u32,
    team: Team,
    src: &mut S,
    out: &mut O,
    gate: &G,
) -> Result<Outcome, Halt>
    requires turns { (1 ≤ turns) × (turns ≤ 1000) }
    requires team { IsTeam team }
    ensures ran { EndedAsKnown (run_of team turns) (S.left src.old) (S.left src.new) (O.held out.old) (O.held out.new)
        result }
    ensures read { IsErrOf result Halt.Read → Rose (S.faults src.old) (S.faults src.new) }
    ensures write { IsErrOf result Halt.Write → Rose (O.faults out.old) (O.faults out.new) }
{
    let mut lines = LineReader::new(alloc, LINE_LIMIT, TOTAL_LIMIT)?;
    match read_head(alloc, &mut lines, src) {
        Err(fault) => Err(halt_of(fault)),
        Ok(Head::NoBegin) => refuse(out, NO_BEGIN),
        Ok(Head::Text(kept)) => run_text(rt, alloc, turns, team, kept, gate, &mut lines, src, out),
    }
}

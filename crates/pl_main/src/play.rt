ghost use Rattle.std.specs.Prelude.{◌≡◌, ◌≤◌, None, IsErrOf, IfSome};
ghost use Rattle.std.specs.Option.{option_copied};
ghost use Rattle.pl_io.specs.Faults.{Rose};
ghost use Rattle.pl_entry.specs.Bounds.{IsMessageLine};
ghost use Rattle.pl_main.specs.Tells.{IsReady};
ghost use Rattle.pl_input.specs.Places.{place_of};
ghost use Rattle.pl_main.specs.Plays.{Answering, AnswersNextOrStops, AnswersAllOrStops};

use crate::answers::tell;
use crate::logs::write_log;
use crate::planner::Planner;
use pl_input::{Halt, halt_of, line_in, next_message};
use pl_io::{LineReader, Sink, Source};
use pl_machine::{Machine, Stop};
use std::alloc::Global;

/// Answers a message and writes the lines of its entries. Answers whether the run is done.
#[tactic(auto, using(crate::proofs::Playing::told_cut, crate::proofs::Playing::filled_cut, crate::proofs::Playing::filled_before, crate::proofs::Playing::not_told))]
fn answer<P: Planner, O: Sink>(
    alloc: Global,
    machine: &mut Machine,
    planner: &mut P,
    line: Option<&[u8]>,
    out: &mut O,
) -> Result<bool, Halt>
    requires ready { IsReady machine.old }
    requires fits { IfSome (option_copied line) IsMessageLine }
    ensures answer { Answering P.rule machine.old (option_copied line.entry) (O.held out.old) result machine.new (O.held out.new) }
    ensures cause { IsErrOf result Halt.Write → Rose (O.faults out.old) (O.faults out.new) }
    ensures later { O.faults out.old ≤ O.faults out.new }
{
    let from = machine.log().len();
    match tell(alloc, machine, planner, line) {
        Ok(()) => {
            write_log(alloc, machine, from, out)?;
            Ok(machine.done())
        }
        Err(Stop::LogFull) if from < machine.log().len() => {
            write_log(alloc, machine, from, out)?;
            Err(Halt::Full)
        }
        // The log was full when the message came, so there is no entry of it to write.
        Err(Stop::LogFull) => Err(Halt::Full),
        Err(_) => Err(Halt::Memory),
    }
}

/// Reads the next message and answers it. Answers whether the run is done.
#[tactic(auto, using(crate::proofs::Playing::input_fits, crate::proofs::Playing::step_answers, crate::proofs::Playing::step_stops))]
fn step<P: Planner, S: Source, O: Sink>(
    alloc: Global,
    machine: &mut Machine,
    planner: &mut P,
    lines: &mut LineReader,
    src: &mut S,
    out: &mut O,
) -> Result<bool, Halt>
    requires ready { IsReady machine.old }
    requires limit { lines.old.limit ≡ 4096 }
    requires working { lines.old.failed ≡ None }
    ensures step { AnswersNextOrStops P.rule machine.old (place_of lines.old (S.left src.old)) (O.held out.old) result machine.new (place_of lines.new (S.left src.new)) (O.held out.new) }
    ensures read { IsErrOf result Halt.Read → Rose (S.faults src.old) (S.faults src.new) }
    ensures write { IsErrOf result Halt.Write → Rose (O.faults out.old) (O.faults out.new) }
    ensures later { (S.faults src.old ≤ S.faults src.new) × (O.faults out.old ≤ O.faults out.new) }
{
    match next_message(lines, src) {
        Err(fault) => Err(halt_of(fault)),
        Ok(message) => answer(alloc, machine, planner, line_in(&message), out),
    }
}

/// Answers all messages up to the end, and writes each round's lines once the round has closed.
#[tactic(auto, using(crate::proofs::Playing::plays_none, crate::proofs::Playing::plays_on, crate::proofs::Playing::plays_out, crate::proofs::Playing::plays_stop))]
pub fn play<P: Planner, S: Source, O: Sink>(
    alloc: Global,
    machine: &mut Machine,
    planner: &mut P,
    lines: &mut LineReader,
    src: &mut S,
    out: &mut O,
) -> Result<(), Halt>
    requires ready { IsReady machine.old }
    requires limit { lines.old.limit ≡ 4096 }
    requires working { lines.old.failed ≡ None }
    ensures play { AnswersAllOrStops P.rule machine.old (place_of lines.old (S.left src.old)) (O.held out.old) result machine.new (place_of lines.new (S.left src.new)) (O.held out.new) }
    ensures read { IsErrOf result Halt.Read → Rose (S.faults src.old) (S.faults src.new) }
    ensures write { IsErrOf result Halt.Write → Rose (O.faults out.old) (O.faults out.new) }
    ensures later { (S.faults src.old ≤ S.faults src.new) × (O.faults out.old ≤ O.faults out.new) }
{
    'messages: loop {
        match step(alloc, machine, planner, lines, src, out) {
            Ok(false) => {}
            Ok(true) => return Ok(()),
            Err(halt) => return Err(halt),
        }
    }
}

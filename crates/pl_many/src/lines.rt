//! The lines that tell what each planner made.
ghost use Rattle.std.specs.Prelude.{◌≤◌, ◌<◌, ◌^◌, length, IfErr, OnOk, OnErr, IfOk, ◌≡◌};
ghost use Rattle.std.specs.String.{string_bytes};
ghost use Rattle.pl_io.specs.Writes.{AppendsFront};
ghost use Rattle.pl_journal.specs.Written.{Adds, WriteStops};
ghost use Rattle.pl_many.specs.Tallies.{planner_line, lines_of};

use crate::tally::{Tally, tally_for};
use pl_entry::Entry;
use pl_input::Halt;
use pl_io::{Sink, put};
use pl_marks::Mark;
use std::alloc::{AllocError, Global};

/// The line of the planner of this number. A reader of journals takes it for a remark.
fn line(alloc: Global, number: u8, tally: Tally) -> Result<String, AllocError>
    ensures { IfOk result (λ text. string_bytes text ≡ planner_line number tally) }
{
    let text = format!(in alloc;
        "# planner {} entries {} ok {}\n",
        number, tally.entries, tally.repairs
    )?;
    Ok(text)
}

#[tactic(auto, using(crate::proofs::Tallying::front_none))]
fn write_tally<O: Sink>(alloc: Global, number: u8, tally: Tally, out: &mut O) -> Result<(), Halt>
    ensures text { OnOk result (Adds (O.held out.old) (O.held out.new) (planner_line number tally)) }
    ensures front { OnErr result (AppendsFront (O.held out.old) (O.held out.new) (planner_line number tally)) }
    ensures cause { IfErr result (WriteStops (O.faults out.old) (O.faults out.new)) }
    ensures later { O.faults out.old ≤ O.faults out.new }
{
    let line = line(alloc, number, tally)?;
    put(out, line.as_bytes())?;
    Ok(())
}

/// Writes a line for each planner, by number.
#[tactic(auto, using(pl_journal::proofs::AboutWriting::adds_none))]
pub fn write_tallies<O: Sink>(
    alloc: Global,
    planners: u8,
    marks: &[Mark],
    log: &[Entry],
    out: &mut O,
) -> Result<(), Halt>
    requires few { length marks.now < 2 ^ 32 }
    requires planners { planners ≤ 8 }
    ensures text { OnOk result (Adds (O.held out.old) (O.held out.new) (lines_of planners marks.now log.now)) }
    ensures front { OnErr result (AppendsFront (O.held out.old) (O.held out.new) (lines_of planners marks.now log.now)) }
    ensures cause { IfErr result (WriteStops (O.faults out.old) (O.faults out.new)) }
    ensures later { O.faults out.old ≤ O.faults out.new }
{
    for before in 0..planners {
        let number = before + 1;
        write_tally(alloc, number, tally_for(number, marks, log), out)?;
    }
    Ok(())
}

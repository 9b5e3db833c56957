ghost use Rattle.std.specs.Prelude.{◌≤◌, ◌+◌, ◌<◌, OnOk, OnErr, IfErr, length};
ghost use Rattle.pl_io.specs.Writes.{AppendsFront};
ghost use Rattle.pl_journal.specs.Rendering.Lines.{line_of, text_from};
ghost use Rattle.pl_journal.specs.Written.{Adds, WriteStops};

use crate::render;
use pl_entry::Entry;
use pl_input::Halt;
use pl_io::{Sink, put};
use pl_model::Model;
use std::alloc::Global;

#[tactic(auto, using(crate::proofs::AboutWriting::front_line))]
fn write_entry<O: Sink>(
    alloc: Global,
    model: &Model,
    number: u32,
    entry: &Entry,
    out: &mut O,
) -> Result<(), Halt>
    ensures text { OnOk result (Adds (O.held out.old) (O.held out.new) (line_of model.now number entry.now)) }
    ensures front { OnErr result (AppendsFront (O.held out.old) (O.held out.new) (line_of model.now number entry.now)) }
    ensures cause { IfErr result (WriteStops (O.faults out.old) (O.faults out.new)) }
    ensures later { O.faults out.old ≤ O.faults out.new }
{
    let line = render(alloc, model, number, entry)?;
    put(out, line.as_slice())?;
    Ok(())
}

/// Writes the lines of entries, the first with this number.
#[tactic(auto, using(crate::proofs::AboutWriting::adds_none, crate::proofs::AboutWriting::adds_more))]
pub fn write_entries<O: Sink>(
    alloc: Global,
    model: &Model,
    from: u32,
    entries: &[Entry],
    out: &mut O,
) -> Result<(), Halt>
    requires { from + length entries.now ≤ 250000 }
    ensures text { OnOk result (Adds (O.held out.old) (O.held out.new) (text_from model.now from entries.now)) }
    ensures front { OnErr result (AppendsFront (O.held out.old) (O.held out.new) (text_from model.now from entries.now)) }
    ensures cause { IfErr result (WriteStops (O.faults out.old) (O.faults out.new)) }
    ensures later { O.faults out.old ≤ O.faults out.new }
{
    let mut number = from;
    for entry in entries {
        write_entry(alloc, model, number, entry, out)?;
        number += 1;
    }
    Ok(())
}

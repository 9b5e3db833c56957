ghost use Rattle.std.specs.Prelude.{◌≤◌, OnOk, OnErr, IfErr, length, drop};
ghost use Rattle.pl_io.specs.Writes.{AppendsFront};
ghost use Rattle.pl_journal.specs.Rendering.Lines.{text_from};
ghost use Rattle.pl_journal.specs.Written.{Adds, WriteStops};

use pl_input::Halt;
use pl_io::Sink;
use pl_journal::write_entries;
use pl_machine::Machine;
use std::alloc::Global;

/// Writes the lines of a log from an entry on. No line is made for a sink that does not keep what it is given.
#[tactic(auto, using(pl_machine::proofs::ShortLogs::log_is_short, crate::proofs::Unwritten::log_unwritten, crate::proofs::Unwritten::log_ended))]
pub fn write_log<O: Sink>(
    alloc: Global,
    machine: &Machine,
    from: usize,
    out: &mut O,
) -> Result<(), Halt>
    requires { from ≤ length machine.now.log }
    ensures text { OnOk result (Adds (O.held out.old) (O.held out.new) (text_from machine.now.model from (drop from machine.now.log))) }
    ensures front { OnErr result (AppendsFront (O.held out.old) (O.held out.new) (text_from machine.now.model from (drop from machine.now.log))) }
    ensures cause { IfErr result (WriteStops (O.faults out.old) (O.faults out.new)) }
    ensures later { O.faults out.old ≤ O.faults out.new }
{
    if !out.keeps() {
        return Ok(());
    }
    let log = machine.log();
    if log.len() <= from {
        return Ok(());
    }
    if let Some(entries) = log.newest_from(from) {
        return write_entries(alloc, machine.model(), from as u32, entries, out);
    }
    let entries = log.entries_from(alloc, from)?;
    write_entries(alloc, machine.model(), from as u32, entries.as_slice(), out)
}

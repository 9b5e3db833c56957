ghost use Rattle.std.specs.Prelude.{◌≡◌, ◌≤◌, ℕ, List, Option, false, None, Some, IsErrOf};
ghost use Rattle.std.specs.Arc.{arc_value};
ghost use Rattle.pl_model.specs.Checked.{IsChecked};
ghost use Rattle.pl_io.specs.Reader.{Reader};
ghost use Rattle.pl_io.specs.Faults.{Rose};
ghost use Rattle.pl_io.specs.Lines.{ahead};
ghost use Rattle.pl_replay.specs.Verifying.{IsReadSoFar, Verifies};

use crate::judging::{entries_of, judge, opening_of};
use crate::verdict::Verdict;
use pl_input::next_message;
use pl_io::{LineFault, LineReader, Source};
use pl_machine::Machine;
use pl_model::Model;
use std::alloc::Global;
use std::sync::Arc;

/// What is said of a journal without a wrong line, behind which the machine stands.
fn legal(machine: Machine, entries: u32) -> (Verdict, Option<Machine>)
    ensures verdict { result.0 ≡ Verdict.Legal entries machine.world.done }
    ensures machine { result.1 ≡ Some machine }
{
    let done = machine.done();
    (Verdict::Legal { entries, done }, Some(machine))
}

/// Takes the entries behind those that the machine has, up to the first wrong one.
fn follow<S: Source>(
    alloc: Global,
    machine: Machine,
    lines: &mut LineReader,
    src: &mut S,
) -> Result<(Verdict, Option<Machine>), LineFault>
    requires unspoiled { machine.spoiled ≡ false }
    requires working { lines.old.failed ≡ None }
    ensures verdict { (first : Reader) (all : Option (List ℕ)) → IsReadSoFar machine.model machine.log first all lines.old (ahead lines.old.held (S.left src.old)) → Verifies machine.model first all result lines.new (ahead lines.new.held (S.left src.new)) }
    ensures cause { IsErrOf result LineFault.Read → Rose (S.faults src.old) (S.faults src.new) }
    ensures later { S.faults src.old ≤ S.faults src.new }
{
    let mut machine = machine;
    'entries: loop {
        let entries = entries_of(&machine);
        let Some(line) = next_message(lines, src)? else {
            return Ok(legal(machine, entries));
        };
        if let Some(wrong) = judge(alloc, &mut machine, entries, line.bytes())? {
            return Ok((wrong, None));
        }
    }
}

/// Reads a journal up to its first wrong entry, and to the end of the input where none is wrong. Blank lines are none of it.
pub fn verify<S: Source>(
    alloc: Global,
    model: Arc<Model>,
    lines: &mut LineReader,
    src: &mut S,
) -> Result<(Verdict, Option<Machine>), LineFault>
    requires checked { IsChecked (arc_value model) }
    requires working { lines.old.failed ≡ None }
    ensures verdict { Verifies (arc_value model) lines.old (ahead lines.old.held (S.left src.old)) result lines.new (ahead lines.new.held (S.left src.new)) }
    ensures cause { IsErrOf result LineFault.Read → Rose (S.faults src.old) (S.faults src.new) }
    ensures later { S.faults src.old ≤ S.faults src.new }
{
    let Some(line) = next_message(lines, src)? else {
        return Ok((Verdict::NotALine(0), None));
    };
    match opening_of(alloc, model.as_ref(), line.bytes())? {
        Some(options) => follow(alloc, Machine::fresh(alloc, model, options)?, lines, src),
        None => Ok((Verdict::NotALine(0), None)),
    }
}

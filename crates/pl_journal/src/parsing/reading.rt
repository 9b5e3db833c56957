ghost use Rattle.std.specs.Prelude.{◌≡◌, ◌<◌, ◌≤◌, ◌^◌, ◌==◌, ◌↔◌, ℕ, IsTrue, length, Ok, IfOk};
ghost use Rattle.pl_model.specs.Checked.{IsChecked};
ghost use Rattle.pl_entry.specs.Bounds.{IsMessageLine};
ghost use Rattle.pl_entry.specs.declared.entry.Entry.{Entry};
ghost use Rattle.pl_journal.specs.Rendering.Lines.{text_of, line_of};
ghost use Rattle.pl_journal.specs.Parsing.Journal.{IsLineOf};
ghost use Rattle.pl_journal.specs.Parsing.Reads.{Gives};
ghost use Rattle.pl_journal.specs.Parsing.Entries.{MayStand, Confirms};

use crate::parsing::entries::candidate;
use crate::parsing::fault::EntryFault;
use crate::parsing::words::is;
use crate::render;
use pl_entry::{Entry, Event};
use pl_model::Model;
use std::alloc::{AllocError, Global};

/// Whether it can be a message: at most 4,096 bytes, no newline among them.
fn is_message(line: &[u8]) -> bool
    ensures { IsTrue result ↔ IsMessageLine line.now }
{
    line.len() <= 4096 && !line.contains(&b'\n')
}

/// Whether the event may stand under this number: the opening has the number 0, and no other has it.
fn may_stand(number: u32, event: &Event) -> bool
    ensures { IsTrue result ↔ MayStand number event.now }
{
    match event {
        Event::Opened(_) => number == 0,
        Event::Input(Some(line)) => number >= 1 && is_message(line.as_slice()),
        _ => number >= 1,
    }
}

/// Whether the line, without its newline, is that of the entry under this number.
pub fn has_line(
    alloc: Global,
    model: &Model,
    number: u32,
    entry: &Entry,
    line: &[u8],
) -> Result<bool, AllocError>
    ensures { IfOk result (λ has. IsTrue has ↔ (line.now ≡ text_of model.now number entry.now)) }
{
    let mut text = render(alloc, model, number, entry)?;
    let _newline = text.pop();
    Ok(is(text.as_slice(), line))
}

/// The entry that was read, where it may stand under its number and the line is its own.
fn confirmed(
    alloc: Global,
    model: &Model,
    line: &[u8],
    number: u32,
    entry: Entry,
) -> Result<(u32, Entry), EntryFault>
    ensures { Confirms model.now line.now number entry result }
{
    if !may_stand(number, &entry.event) {
        return Err(EntryFault::NotALine);
    }
    if has_line(alloc, model, number, &entry, line)? {
        Ok((number, entry))
    } else {
        Err(EntryFault::NotALine)
    }
}

/// The entry of a line without its newline, and the entry's number, for a model as `check` answers it.
#[tactic(auto, using(crate::proofs::AboutParsing::Reread::unread, crate::proofs::AboutParsing::Reread::reread))]
pub fn read_entry(alloc: Global, model: &Model, line: &[u8]) -> Result<(u32, Entry), EntryFault>
    requires { IsChecked model.now }
    // What is read may stand in a journal, and has this line.
    ensures found { IfOk result (λ read. IsLineOf model.now line.now read.0 read.1) }
    // The line of an entry is read as that entry under its number, unless memory runs out.
    ensures reads { (n : ℕ) (e : Entry) → IsLineOf model.now line.now n e → Gives result (Ok (n, e)) }
{
    let (number, entry) = candidate(alloc, model, line)?;
    confirmed(alloc, model, line, number, entry)
}

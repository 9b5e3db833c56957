ghost use Rattle.std.specs.Prelude.{◌≡◌, ◌<◌, ◌^◌, true, false, nat_eq, if◌then◌else◌, Some, None, length, IfOk};
ghost use Rattle.pl_model.specs.Checked.{IsChecked};
ghost use Rattle.pl_entry.specs.declared.entry.Entry.{Entry};
ghost use Rattle.pl_journal.specs.Rendering.Lines.{text_of};
ghost use Rattle.pl_machine.specs.Legal.{IsHistory, options_in};
ghost use Rattle.pl_replay.specs.Journals.{IsNextLine, Opens, ReadsAt, Differs, JudgesLine};

use crate::verdict::Verdict;
use pl_entry::{Entry, Event, Reason, Reply};
use pl_facts::Options;
use pl_journal::{EntryFault, has_line, read_entry};
use pl_machine::{Machine, Stop};
use pl_model::Model;
use std::alloc::{AllocError, Global};

/// The entry, where this is its number.
fn numbered(number: u32, found: u32, entry: Entry) -> Option<Entry>
    ensures { result ≡ if nat_eq found number then Some entry else None }
{
    if found == number { Some(entry) } else { None }
}

/// The entry of a line, where it has this number.
fn entry_at(
    alloc: Global,
    model: &Model,
    number: u32,
    line: &[u8],
) -> Result<Option<Entry>, AllocError>
    requires { IsChecked model.now }
    ensures { IfOk result (λ entry. ReadsAt model.now number line.now entry) }
{
    match read_entry(alloc, model, line) {
        Ok((found, entry)) => Ok(numbered(number, found, entry)),
        Err(EntryFault::NotALine) => Ok(None),
        Err(EntryFault::Memory) => Err(AllocError),
    }
}

/// The options of an opening, and none of another event.
fn options_of(event: &Event) -> Option<Options>
    ensures { result ≡ options_in event.now }
{
    match event {
        Event::Opened(options) => Some(*options),
        _ => None,
    }
}

/// The options of a journal's first line, where it is an opening.
#[tactic(auto, using(crate::proofs::Found::opens))]
pub(crate) fn opening_of(
    alloc: Global,
    model: &Model,
    line: &[u8],
) -> Result<Option<Options>, AllocError>
    requires { IsChecked model.now }
    ensures { IfOk result (λ options. Opens model.now line.now options) }
{
    match entry_at(alloc, model, 0, line)? {
        Some(entry) => Ok(options_of(&entry.event)),
        None => Ok(None),
    }
}

/// Whether two replies are seen to be one without their texts. Most are.
fn are_plainly_one(one: &Reply, other: &Reply) -> bool
    ensures { result ≡ true → one.now ≡ other.now }
{
    match (one, other) {
        (Reply::Done, Reply::Done) => true,
        (Reply::Rested(Reason::Clear), Reply::Rested(Reason::Clear)) => true,
        (Reply::Rested(Reason::Spent), Reply::Rested(Reason::Spent)) => true,
        (Reply::Rested(Reason::Stuck), Reply::Rested(Reason::Stuck)) => true,
        _ => false,
    }
}

/// What is wrong of the line of a reply where the machine's entry is another.
#[tactic(auto, using(crate::proofs::Judged::same_line))]
fn difference(
    alloc: Global,
    model: &Model,
    number: u32,
    answered: Entry,
    read: &Reply,
    line: &[u8],
) -> Result<Option<Verdict>, AllocError>
    requires { line.now ≡ text_of model.now number (record { event = answered.event; reply = read.now }) }
    ensures { IfOk result (λ wrong. Differs model.now number answered line.now wrong) }
{
    if are_plainly_one(read, &answered.reply) {
        return Ok(None);
    }
    if has_line(alloc, model, number, &answered, line)? {
        Ok(None)
    } else {
        Ok(Some(Verdict::OtherReply(number, answered.reply)))
    }
}

/// Lets the machine answer the event of an entry, whose line this is. Answers what is wrong, if something is.
fn compare(
    alloc: Global,
    machine: &mut Machine,
    number: u32,
    entry: Entry,
    line: &[u8],
) -> Result<Option<Verdict>, AllocError>
    requires unspoiled { machine.old.spoiled ≡ false }
    requires number { number ≡ length machine.old.log }
    requires line { IsNextLine machine.old.model machine.old.log line.now entry }
    requires history { IsHistory machine.old.model machine.old.log machine.old.world }
    ensures { IfOk result (λ wrong. JudgesLine machine.old line.now wrong machine.new) }
{
    let Entry { event, reply: read } = entry;
    match machine.answer(&event) {
        Ok(reply) => {
            let answered = Entry { event, reply };
            difference(alloc, machine.model(), number, answered, &read, line)
        }
        Err(Stop::NotNow) => Ok(Some(Verdict::NotNow(number))),
        Err(Stop::LogFull) => Ok(Some(Verdict::Full(number))),
        Err(_) => Err(AllocError),
    }
}

/// How many entries the log of an unspoiled machine has.
#[tactic(auto, using(crate::proofs::Logs::legal_small))]
pub(crate) fn entries_of(machine: &Machine) -> u32
    requires { machine.now.spoiled ≡ false }
    ensures count { result ≡ length machine.now.log }
    ensures history { IsHistory machine.now.model machine.now.log machine.now.world }
{
    machine.log().len() as u32
}

/// Takes the line of the next entry. Answers what is wrong, if something is.
pub(crate) fn judge(
    alloc: Global,
    machine: &mut Machine,
    number: u32,
    line: &[u8],
) -> Result<Option<Verdict>, AllocError>
    requires unspoiled { machine.old.spoiled ≡ false }
    requires number { number ≡ length machine.old.log }
    requires history { IsHistory machine.old.model machine.old.log machine.old.world }
    ensures { IfOk result (λ wrong. JudgesLine machine.old line.now wrong machine.new) }
{
    match entry_at(alloc, machine.model(), number, line)? {
        Some(entry) => compare(alloc, machine, number, entry, line),
        None => Ok(Some(Verdict::NotALine(number))),
    }
}

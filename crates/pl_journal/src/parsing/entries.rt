ghost use Rattle.std.specs.Prelude.{◌≡◌, ◌≤◌, ◌^◌, length};
ghost use Rattle.pl_journal.specs.Parsing.Reads.{Gives};
ghost use Rattle.pl_journal.specs.Parsing.Entries.{fix_in, rested_in, commit_in, dispatch_in, entry_by, entry_in, candidate_in};

use crate::parsing::commands::sent;
use crate::parsing::conflicts::conflict;
use crate::parsing::counts::{count, count_of};
use crate::parsing::fault::EntryFault;
use crate::parsing::inputs::input;
use crate::parsing::moves::repair;
use crate::parsing::openings::opening;
use crate::parsing::replies::{commit_reply, fix_reply, rest_reply};
use crate::parsing::words::{behind, is, len_before, word};
use pl_entry::{Entry, Event, Reply};
use pl_model::Model;
use std::alloc::Global;

#[tactic(auto, unfolding(crate::specs::Parsing::Entries::fix_in))]
fn fix(model: &Model, text: &[u8]) -> Result<Entry, EntryFault>
    requires { length model.now.kinds ≤ 2 ^ 32 }
    ensures { result ≡ fix_in model.now text.now }
{
    let (conflict, text) = conflict(text)?;
    let (repair, text) = repair(model, behind(b"by", text)?)?;
    let reply = fix_reply(behind(b":", text)?)?;
    Ok(Entry {
        event: Event::Fix(conflict, repair),
        reply,
    })
}

#[tactic(auto, unfolding(crate::specs::Parsing::Entries::rested_in))]
fn rested(text: &[u8]) -> Result<Entry, EntryFault>
    ensures { result ≡ rested_in text.now }
{
    let reply = rest_reply(text)?;
    Ok(Entry {
        event: Event::Rest,
        reply,
    })
}

#[tactic(auto, unfolding(crate::specs::Parsing::Entries::commit_in))]
fn commit(text: &[u8]) -> Result<Entry, EntryFault>
    ensures { result ≡ commit_in text.now }
{
    let (moment, text) = count(text)?;
    let reply = commit_reply(behind(b":", text)?)?;
    Ok(Entry {
        event: Event::Commit(moment),
        reply,
    })
}

#[tactic(auto, unfolding(crate::specs::Parsing::Entries::dispatch_in))]
fn dispatch(alloc: Global, model: &Model, text: &[u8]) -> Result<Entry, EntryFault>
    requires { length model.now.kinds ≤ 2 ^ 32 }
    ensures { Gives result (dispatch_in model.now text.now) }
{
    let reply = sent(alloc, model, text)?;
    Ok(Entry {
        event: Event::Dispatch,
        reply,
    })
}

/// By its first word.
#[tactic(auto, unfolding(crate::specs::Parsing::Entries::entry_by))]
fn entry_by(alloc: Global, model: &Model, word: &[u8], text: &[u8]) -> Result<Entry, EntryFault>
    requires { length model.now.kinds ≤ 2 ^ 32 }
    ensures { Gives result (entry_by model.now word.now text.now) }
{
    if is(word, b"open") {
        opening(text)
    } else if is(word, b"in") {
        input(alloc, text)
    } else if is(word, b"fix") {
        fix(model, text)
    } else if is(word, b"rest") {
        rested(text)
    } else if is(word, b"commit") {
        commit(text)
    } else if is(word, b"dispatch") {
        dispatch(alloc, model, text)
    } else if is(word, b"close") {
        Ok(Entry {
            event: Event::Close,
            reply: Reply::Done,
        })
    } else {
        Err(EntryFault::NotALine)
    }
}

#[tactic(auto, unfolding(crate::specs::Parsing::Entries::entry_in))]
fn entry(alloc: Global, model: &Model, text: &[u8]) -> Result<Entry, EntryFault>
    requires { length model.now.kinds ≤ 2 ^ 32 }
    ensures { Gives result (entry_in model.now text.now) }
{
    let (word, text) = word(text)?;
    entry_by(alloc, model, word, text)
}

/// The number and the entry that the line may be of.
#[tactic(auto, unfolding(crate::specs::Parsing::Entries::candidate_in))]
pub fn candidate(alloc: Global, model: &Model, line: &[u8]) -> Result<(u32, Entry), EntryFault>
    requires { length model.now.kinds ≤ 2 ^ 32 }
    ensures { Gives result (candidate_in model.now line.now) }
{
    let (digits, rest) = line.split_at(len_before(line, b' '));
    let number = count_of(digits)?;
    let entry = entry(alloc, model, rest)?;
    Ok((number, entry))
}

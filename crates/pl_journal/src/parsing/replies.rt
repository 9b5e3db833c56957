ghost use Rattle.std.specs.Prelude.{◌≡◌};
ghost use Rattle.pl_journal.specs.Parsing.Replies.{plan_reply, input_reply, fix_reply_by, fix_reply_in, reason_of, rest_reply_in, commit_reply_by, commit_reply_in, locked_in, behind_in, beyond_in, held_in};

use crate::parsing::conflicts::conflict;
use crate::parsing::counts::count;
use crate::parsing::fault::EntryFault;
use crate::parsing::words::{is, word};
use pl_entry::{Reason, Reply};

#[tactic(auto, unfolding(crate::specs::Parsing::Replies::plan_reply))]
fn plan_reply(word: &[u8]) -> Result<Reply, EntryFault>
    ensures { result ≡ plan_reply word.now }
{
    if is(word, b"duplicate-goal") {
        Ok(Reply::DuplicateGoal)
    } else if is(word, b"too-late") {
        Ok(Reply::TooLate)
    } else if is(word, b"tick-back") {
        Ok(Reply::TickBack)
    } else if is(word, b"tick-beyond") {
        Ok(Reply::TickBeyond)
    } else if is(word, b"too-many-goals") {
        Ok(Reply::TooManyGoals)
    } else if is(word, b"not-begun") {
        Ok(Reply::NotBegun)
    } else if is(word, b"end-back") {
        Ok(Reply::EndBack)
    } else {
        Err(EntryFault::NotALine)
    }
}

/// The reply to a message.
#[tactic(auto, unfolding(crate::specs::Parsing::Replies::input_reply))]
pub fn input_reply(word: &[u8]) -> Result<Reply, EntryFault>
    ensures { result ≡ input_reply word.now }
{
    if is(word, b"ok") {
        Ok(Reply::Done)
    } else if is(word, b"end") {
        Ok(Reply::Ended)
    } else if is(word, b"bad-line") {
        Ok(Reply::BadLine)
    } else if is(word, b"unknown-name") {
        Ok(Reply::UnknownName)
    } else if is(word, b"range") {
        Ok(Reply::Range)
    } else {
        plan_reply(word)
    }
}

#[tactic(auto, unfolding(crate::specs::Parsing::Replies::locked_in))]
fn locked(text: &[u8]) -> Result<Reply, EntryFault>
    ensures { result ≡ locked_in text.now }
{
    let (id, _) = count(text)?;
    Ok(Reply::Locked(id))
}

#[tactic(auto, unfolding(crate::specs::Parsing::Replies::behind_in))]
fn behind(text: &[u8]) -> Result<Reply, EntryFault>
    ensures { result ≡ behind_in text.now }
{
    let (id, _) = count(text)?;
    Ok(Reply::Behind(id))
}

#[tactic(auto, unfolding(crate::specs::Parsing::Replies::beyond_in))]
fn beyond(text: &[u8]) -> Result<Reply, EntryFault>
    ensures { result ≡ beyond_in text.now }
{
    let (id, _) = count(text)?;
    Ok(Reply::Beyond(id))
}

#[tactic(auto, unfolding(crate::specs::Parsing::Replies::fix_reply_by))]
fn fix_reply_by(word: &[u8], text: &[u8]) -> Result<Reply, EntryFault>
    ensures { result ≡ fix_reply_by word.now text.now }
{
    if is(word, b"ok") {
        Ok(Reply::Done)
    } else if is(word, b"stale") {
        Ok(Reply::Stale)
    } else if is(word, b"not-for") {
        Ok(Reply::NotFor)
    } else if is(word, b"locked") {
        locked(text)
    } else if is(word, b"behind") {
        behind(text)
    } else if is(word, b"beyond") {
        beyond(text)
    } else if is(word, b"full") {
        Ok(Reply::Full)
    } else {
        Err(EntryFault::NotALine)
    }
}

/// The reply to a repair.
#[tactic(auto, unfolding(crate::specs::Parsing::Replies::fix_reply_in))]
pub fn fix_reply(text: &[u8]) -> Result<Reply, EntryFault>
    ensures { result ≡ fix_reply_in text.now }
{
    let (word, text) = word(text)?;
    fix_reply_by(word, text)
}

#[tactic(auto, unfolding(crate::specs::Parsing::Replies::reason_of))]
fn reason_of(word: &[u8]) -> Result<Reason, EntryFault>
    ensures { result ≡ reason_of word.now }
{
    if is(word, b"clear") {
        Ok(Reason::Clear)
    } else if is(word, b"spent") {
        Ok(Reason::Spent)
    } else if is(word, b"stuck") {
        Ok(Reason::Stuck)
    } else {
        Err(EntryFault::NotALine)
    }
}

/// The reply to a rest.
#[tactic(auto, unfolding(crate::specs::Parsing::Replies::rest_reply_in))]
pub fn rest_reply(text: &[u8]) -> Result<Reply, EntryFault>
    ensures { result ≡ rest_reply_in text.now }
{
    let (word, _) = word(text)?;
    Ok(Reply::Rested(reason_of(word)?))
}

#[tactic(auto, unfolding(crate::specs::Parsing::Replies::held_in))]
fn held(text: &[u8]) -> Result<Reply, EntryFault>
    ensures { result ≡ held_in text.now }
{
    let (conflict, _) = conflict(text)?;
    Ok(Reply::Held(conflict))
}

#[tactic(auto, unfolding(crate::specs::Parsing::Replies::commit_reply_by))]
fn commit_reply_by(word: &[u8], text: &[u8]) -> Result<Reply, EntryFault>
    ensures { result ≡ commit_reply_by word.now text.now }
{
    if is(word, b"ok") {
        Ok(Reply::Done)
    } else if is(word, b"behind") {
        Ok(Reply::CommitBehind)
    } else if is(word, b"beyond") {
        Ok(Reply::CommitBeyond)
    } else if is(word, b"held") {
        held(text)
    } else {
        Err(EntryFault::NotALine)
    }
}

/// The reply to a commit.
#[tactic(auto, unfolding(crate::specs::Parsing::Replies::commit_reply_in))]
pub fn commit_reply(text: &[u8]) -> Result<Reply, EntryFault>
    ensures { result ≡ commit_reply_in text.now }
{
    let (word, text) = word(text)?;
    commit_reply_by(word, text)
}

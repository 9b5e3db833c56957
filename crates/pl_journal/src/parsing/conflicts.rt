ghost use Rattle.std.specs.Prelude.{◌≡◌};
ghost use Rattle.pl_journal.specs.Parsing.Reads.{Sees};
ghost use Rattle.pl_journal.specs.Parsing.Moves.{activity_code, code_of, code_in, conflict_in};

use crate::parsing::counts::count;
use crate::parsing::fault::EntryFault;
use crate::parsing::words::{is, word};
use pl_conflict::{Code, Conflict};

#[tactic(auto, unfolding(crate::specs::Parsing::Moves::activity_code))]
fn activity_code(word: &[u8]) -> Result<Code, EntryFault>
    ensures { result ≡ activity_code word.now }
{
    if is(word, b"open-goal") {
        Ok(Code::OpenGoal)
    } else if is(word, b"off-goal") {
        Ok(Code::OffGoal)
    } else if is(word, b"late") {
        Ok(Code::Late)
    } else if is(word, b"unset") {
        Ok(Code::Unset)
    } else if is(word, b"bad-value") {
        Ok(Code::BadValue)
    } else if is(word, b"undetailed") {
        Ok(Code::Undetailed)
    } else if is(word, b"overrun") {
        Ok(Code::Overrun)
    } else {
        Err(EntryFault::NotALine)
    }
}

#[tactic(auto, unfolding(crate::specs::Parsing::Moves::code_of))]
fn code_of(word: &[u8]) -> Result<Code, EntryFault>
    ensures { result ≡ code_of word.now }
{
    if is(word, b"temporal") {
        Ok(Code::Temporal)
    } else if is(word, b"link") {
        Ok(Code::Linked)
    } else if is(word, b"over") {
        Ok(Code::Over)
    } else if is(word, b"low") {
        Ok(Code::Low)
    } else if is(word, b"high") {
        Ok(Code::High)
    } else if is(word, b"must") {
        Ok(Code::Must)
    } else if is(word, b"bad-step") {
        Ok(Code::BadStep)
    } else {
        activity_code(word)
    }
}

fn code(text: &[u8]) -> Result<(Code, &[u8]), EntryFault>
    ensures { Sees (λ p. (p.0, p.1.now)) result (code_in text.now) }
{
    let (word, rest) = word(text)?;
    Ok((code_of(word)?, rest))
}

/// A conflict, and what follows it: its moment, its code, its subject and its three details.
#[tactic(auto, unfolding(crate::specs::Parsing::Moves::conflict_in))]
pub fn conflict(text: &[u8]) -> Result<(Conflict, &[u8]), EntryFault>
    ensures { Sees (λ p. (p.0, p.1.now)) result (conflict_in text.now) }
{
    let (from, text) = count(text)?;
    let (code, text) = code(text)?;
    let (subject, text) = count(text)?;
    let (detail, text) = count(text)?;
    let (a, text) = count(text)?;
    let (b, text) = count(text)?;
    Ok((
        Conflict {
            from,
            code,
            subject,
            detail,
            a,
            b,
        },
        text,
    ))
}

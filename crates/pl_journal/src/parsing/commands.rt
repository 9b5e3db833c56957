ghost use Rattle.std.specs.Prelude.{◌≡◌, ◌≤◌, ◌^◌, length, drop, IfOk};
ghost use Rattle.pl_journal.specs.Parsing.Reads.{Gives, Sees};
ghost use Rattle.pl_journal.specs.Parsing.Replies.{value_of, named_value, value_at, values_in, sent_in};

use crate::parsing::counts::{amount_of, count};
use crate::parsing::fault::EntryFault;
use crate::parsing::names::kind_named;
use crate::parsing::words::{len_before, word};
use pl_entry::{Reply, Values};
use pl_lists::Items;
use pl_model::{Model, Param};
use std::alloc::{AllocError, Global};

/// What is behind the first byte, and nothing where there is none.
fn behind_first(text: &[u8]) -> &[u8]
    ensures { result.now ≡ drop 1 text.now }
{
    match text {
        [_, rest @ ..] => rest,
        [] => &[],
    }
}

/// The value of `NAME=VALUE`.
#[tactic(auto, unfolding(crate::specs::Parsing::Replies::value_of))]
fn value_of(name: &[u8], word: &[u8]) -> Result<i64, EntryFault>
    ensures { result ≡ value_of name.now word.now }
{
    let (found, rest) = word.split_at(len_before(word, b'='));
    if found == name {
        amount_of(behind_first(rest))
    } else {
        Err(EntryFault::NotALine)
    }
}

fn named_value<'a>(name: &[u8], text: &'a [u8]) -> Result<(i64, &'a [u8]), EntryFault>
    ensures { Sees (λ p. (p.0, p.1.now)) result (named_value name.now text.now) }
{
    let (word, rest) = word(text)?;
    Ok((value_of(name, word)?, rest))
}

/// The value that the text begins with and what follows it, where it is of this name. Else the text stays.
#[tactic(auto, unfolding(crate::specs::Parsing::Replies::value_at))]
fn value_at<'a>(name: &[u8], text: &'a [u8]) -> (Option<i64>, &'a [u8])
    ensures value { result.0 ≡ (value_at name.now text.now).0 }
    ensures rest { result.1.now ≡ (value_at name.now text.now).1 }
{
    match named_value(name, text) {
        Ok((value, rest)) => (Some(value), rest),
        Err(_) => (None, text),
    }
}

/// A place for each parameter.
fn values_of(alloc: Global, params: &[Param], text: &[u8]) -> Result<Values, AllocError>
    ensures { IfOk result (λ values. values ≡ values_in params.now text.now) }
{
    let mut values = Items::new(alloc);
    let mut rest = text;
    for param in params {
        let (value, more) = value_at(param.name.as_slice(), rest);
        values.push(value)?;
        rest = more;
    }
    Ok(values)
}

/// The command of a dispatch: an activity's id, its kind, its start and its values.
#[tactic(auto, unfolding(crate::specs::Parsing::Replies::sent_in))]
pub fn sent(alloc: Global, model: &Model, text: &[u8]) -> Result<Reply, EntryFault>
    requires { length model.now.kinds ≤ 2 ^ 32 }
    ensures { Gives result (sent_in model.now text.now) }
{
    let (id, text) = count(text)?;
    let (name, text) = word(text)?;
    let (number, kind) = kind_named(model, name)?;
    let (start, text) = count(text)?;
    let values = values_of(alloc, kind.params.as_slice(), text)?;
    Ok(Reply::Sent {
        id,
        kind: number,
        start,
        values,
    })
}

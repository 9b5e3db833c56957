ghost use Rattle.std.specs.Prelude.{◌≡◌, IfOk};
ghost use Rattle.pl_journal.specs.Parsing.Reads.{Gives, Sees};
ghost use Rattle.pl_journal.specs.Parsing.Entries.{cut_message, message_in, input_by, input_in};

use crate::parsing::fault::EntryFault;
use crate::parsing::replies::input_reply;
use crate::parsing::words::{behind, is, word};
use pl_entry::{Bytes, Entry, Event, Reply};
use pl_lists::Items;
use std::alloc::{AllocError, Global};

fn cut_message(byte: u8, text: &[u8]) -> Result<&[u8], EntryFault>
    ensures { Sees (λ p. p.now) result (cut_message byte text.now) }
{
    if byte == b' ' {
        Ok(text)
    } else {
        Err(EntryFault::NotALine)
    }
}

/// All that is behind the blank that the text begins with.
fn message(text: &[u8]) -> Result<&[u8], EntryFault>
    ensures { Sees (λ p. p.now) result (message_in text.now) }
{
    match text {
        [byte, rest @ ..] => cut_message(*byte, rest),
        [] => Err(EntryFault::NotALine),
    }
}

fn bytes_of(alloc: Global, text: &[u8]) -> Result<Bytes, AllocError>
    ensures { IfOk result (λ bytes. bytes ≡ text.now) }
{
    let mut bytes = Vec::new(alloc);
    bytes.extend_from_slice(text)?;
    Ok(Items::from_vec(bytes))
}

/// A message, behind the word that answers it.
#[tactic(auto, unfolding(crate::specs::Parsing::Entries::input_by))]
fn input_by(alloc: Global, word: &[u8], text: &[u8]) -> Result<Entry, EntryFault>
    ensures { Gives result (input_by word.now text.now) }
{
    let reply = input_reply(word)?;
    let line = message(behind(b":", text)?)?;
    let line = bytes_of(alloc, line)?;
    Ok(Entry {
        event: Event::Input(Some(line)),
        reply,
    })
}

/// A message or the end of the input.
#[tactic(auto, unfolding(crate::specs::Parsing::Entries::input_in))]
pub fn input(alloc: Global, text: &[u8]) -> Result<Entry, EntryFault>
    ensures { Gives result (input_in text.now) }
{
    let (word, rest) = word(text)?;
    if is(word, b"eof") {
        Ok(Entry {
            event: Event::Input(None),
            reply: Reply::Ended,
        })
    } else {
        input_by(alloc, word, rest)
    }
}

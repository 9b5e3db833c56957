ghost use Rattle.std.specs.Prelude.{◌≡◌, ◌≤◌, length, bytes_eq};
ghost use Rattle.pl_journal.specs.Parsing.Reads.{Sees};
ghost use Rattle.pl_journal.specs.Parsing.Words.{len_before, cut_word, word_in, said_in};

use crate::parsing::fault::EntryFault;

/// How many bytes stand before the first `stop`.
#[tactic(auto, using(crate::proofs::AboutParsing::Before::before_within))]
pub fn len_before(text: &[u8], stop: u8) -> usize
    ensures value { result ≡ len_before stop text.now }
    ensures within { result ≤ length text.now }
{
    text.iter().take_while(|byte| **byte != stop).count()
}

/// Whether the word is this one.
pub fn is(word: &[u8], text: &[u8]) -> bool
    ensures { result ≡ bytes_eq word.now text.now }
{
    word == text
}

fn cut_word(byte: u8, text: &[u8]) -> Result<(&[u8], &[u8]), EntryFault>
    ensures { Sees (λ p. (p.0.now, p.1.now)) result (cut_word byte text.now) }
{
    if byte == b' ' {
        Ok(text.split_at(len_before(text, b' ')))
    } else {
        Err(EntryFault::NotALine)
    }
}

/// The word behind the blank that the text begins with, and what follows the word.
pub fn word(text: &[u8]) -> Result<(&[u8], &[u8]), EntryFault>
    ensures { Sees (λ p. (p.0.now, p.1.now)) result (word_in text.now) }
{
    match text {
        [byte, rest @ ..] => cut_word(*byte, rest),
        [] => Err(EntryFault::NotALine),
    }
}

/// What follows this word.
pub fn behind<'a>(word_text: &[u8], text: &'a [u8]) -> Result<&'a [u8], EntryFault>
    ensures { Sees (λ p. p.now) result (said_in word_text.now text.now) }
{
    let (found, rest) = word(text)?;
    if is(found, word_text) {
        Ok(rest)
    } else {
        Err(EntryFault::NotALine)
    }
}

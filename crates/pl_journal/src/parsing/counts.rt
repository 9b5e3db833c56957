ghost use Rattle.std.specs.Prelude.{◌≡◌};
ghost use Rattle.pl_text.specs.Bytes.{is_digit};
ghost use Rattle.pl_journal.specs.Parsing.Reads.{Sees};
ghost use Rattle.pl_journal.specs.Parsing.Words.{word_or_none, with_digit, count_of, count_in, labelled_in, amount_of, amount_in};

use crate::parsing::fault::EntryFault;
use crate::parsing::words::{behind, word};

fn is_digit(byte: u8) -> bool
    ensures { result ≡ is_digit byte }
{
    b'0' <= byte && byte <= b'9'
}

fn word_or_none(number: u64) -> Result<u32, EntryFault>
    ensures { result ≡ word_or_none number }
{
    if number < 4_294_967_296 {
        Ok(number as u32)
    } else {
        Err(EntryFault::NotALine)
    }
}

/// The number with one more digit.
fn with_digit(number: u32, byte: u8) -> Result<u32, EntryFault>
    ensures { result ≡ with_digit number byte }
{
    if is_digit(byte) {
        word_or_none(u64::from(number) * 10 + u64::from(byte - b'0'))
    } else {
        Err(EntryFault::NotALine)
    }
}

/// The number that the digits are of.
#[tactic(auto, unfolding(crate::specs::Parsing::Words::count_of))]
pub fn count_of(digits: &[u8]) -> Result<u32, EntryFault>
    ensures { result ≡ count_of digits.now }
{
    let mut number = 0;
    for byte in digits {
        number = with_digit(number, *byte)?;
    }
    Ok(number)
}

/// A number, and what follows it.
pub fn count(text: &[u8]) -> Result<(u32, &[u8]), EntryFault>
    ensures { Sees (λ p. (p.0, p.1.now)) result (count_in text.now) }
{
    let (digits, rest) = word(text)?;
    Ok((count_of(digits)?, rest))
}

/// A number behind a word.
pub fn labelled<'a>(label: &[u8], text: &'a [u8]) -> Result<(u32, &'a [u8]), EntryFault>
    ensures { Sees (λ p. (p.0, p.1.now)) result (labelled_in label.now text.now) }
{
    count(behind(label, text)?)
}

/// The value that the digits are of, at most 1,000,000,000.
pub fn amount_of(digits: &[u8]) -> Result<i64, EntryFault>
    ensures { result ≡ amount_of digits.now }
{
    let number = count_of(digits)?;
    if number <= 1_000_000_000 {
        Ok(i64::from(number))
    } else {
        Err(EntryFault::NotALine)
    }
}

/// A value, and what follows it.
pub fn amount(text: &[u8]) -> Result<(i64, &[u8]), EntryFault>
    ensures { Sees (λ p. (p.0, p.1.now)) result (amount_in text.now) }
{
    let (digits, rest) = word(text)?;
    Ok((amount_of(digits)?, rest))
}

ghost use Rattle.std.specs.Prelude.{◌≡◌, ◌++◌, OnOk, IfOk};
ghost use Rattle.pl_preface.specs.Refusals.{problem_words, line_words, refusal_words, refusal_line};

use crate::problem::Problem;
use crate::refusal::Refusal;
use std::alloc::{AllocError, Global};

fn problem_words(problem: Problem) -> &'static [u8]
    ensures { result.now ≡ problem_words problem }
{
    match problem {
        Problem::BadLine => b"bad line",
        Problem::UnknownName => b"unknown name",
        Problem::OutOfRange => b"out of range",
    }
}

#[tactic(auto, using(crate::proofs::Texts::words_joined))]
fn push_line_words(text: &mut Vec<u8>, number: u64, words: &[u8]) -> Result<(), AllocError>
    ensures { OnOk result (text.new.items ≡ text.old.items ++ line_words number words.now) }
{
    text.extend_from_slice(b"line ")?;
    let alloc = *text.allocator();
    let digits = number.to_string(alloc)?;
    text.extend_from_slice(digits.as_bytes())?;
    text.extend_from_slice(b": ")?;
    text.extend_from_slice(words)?;
    Ok(())
}

fn push_refusal_words(text: &mut Vec<u8>, why: Refusal) -> Result<(), AllocError>
    ensures { OnOk result (text.new.items ≡ text.old.items ++ refusal_words why) }
{
    match why {
        Refusal::Faulty(number, problem) => push_line_words(text, number, problem_words(problem)),
        Refusal::TooMany(number) => push_line_words(text, number, b"too many"),
        Refusal::NoJournal => {
            text.extend_from_slice(b"no journal")?;
            Ok(())
        }
    }
}

/// The line that tells why what stands before a journal is refused. The label says what was asked for, as `rate`.
#[tactic(auto, using(crate::proofs::Texts::line_joined), unfolding(crate::specs::Refusals::refusal_line))]
pub fn refusal_line(alloc: Global, label: &[u8], why: Refusal) -> Result<Vec<u8>, AllocError>
    ensures { IfOk result (λ line. line.items ≡ refusal_line label.now why) }
{
    let mut line = Vec::from_slice(alloc, label)?;
    line.extend_from_slice(b": ")?;
    push_refusal_words(&mut line, why)?;
    line.push(b'\n')?;
    Ok(line)
}

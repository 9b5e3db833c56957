ghost use Rattle.std.specs.Prelude.{◌≡◌, [], ◌∷◌, ◌++◌, OnOk, IfOk, codes};
ghost use Rattle.pl_journal.specs.Rendering.Words.{spaced};
ghost use Rattle.pl_journal.specs.Rendering.Lines.{reply_words};
ghost use Rattle.pl_report.specs.Verdicts.{ending_word, legal_words, legal_line, wrong_label, wrong_line, verdict_line};

use pl_entry::Reply;
use pl_journal::{push_labelled, push_reply, push_word};
use pl_model::Model;
use pl_replay::Verdict;
use pl_text::push_number;
use std::alloc::{AllocError, Global};

fn ending_word(done: bool) -> &'static [u8]
    ensures { result.now ≡ ending_word done }
{
    if done { b"finished" } else { b"unfinished" }
}

#[tactic(auto, using(pl_journal::proofs::AboutRendering::Texts::words_joined))]
fn push_legal_words(line: &mut Vec<u8>, entries: u32, done: bool) -> Result<(), AllocError>
    ensures { OnOk result (line.new.items ≡ line.old.items ++ spaced (legal_words entries done)) }
{
    push_labelled(line, b"entries", entries)?;
    push_word(line, ending_word(done))?;
    Ok(())
}

#[tactic(auto, using(crate::proofs::Texts::line_begun))]
fn legal_line(alloc: Global, entries: u32, done: bool) -> Result<Vec<u8>, AllocError>
    ensures { IfOk result (λ line. line.items ≡ legal_line entries done) }
{
    let mut line = Vec::from_slice(alloc, b"journal ok:")?;
    push_legal_words(&mut line, entries, done)?;
    line.push(b'\n')?;
    Ok(line)
}

/// What a line on a wrong entry begins with.
#[tactic(auto, using(crate::proofs::Texts::texts_joined))]
fn wrong_label(alloc: Global, number: u32) -> Result<Vec<u8>, AllocError>
    ensures { IfOk result (λ label. label.items ≡ wrong_label number) }
{
    let mut label = Vec::from_slice(alloc, b"journal: entry ")?;
    push_number(&mut label, i64::from(number))?;
    label.push(b':')?;
    Ok(label)
}

#[tactic(auto, using(crate::proofs::Texts::line_begun))]
fn wrong_line(alloc: Global, number: u32, wrong: &[u8]) -> Result<Vec<u8>, AllocError>
    ensures { IfOk result (λ line. line.items ≡ wrong_line number (wrong.now ∷ [])) }
{
    let mut line = wrong_label(alloc, number)?;
    push_word(&mut line, wrong)?;
    line.push(b'\n')?;
    Ok(line)
}

#[tactic(auto, using(pl_journal::proofs::AboutRendering::Texts::words_joined))]
fn push_reply_words(line: &mut Vec<u8>, model: &Model, reply: &Reply) -> Result<(), AllocError>
    ensures { OnOk result (line.new.items ≡ line.old.items ++ spaced (codes "reply is" ∷ reply_words model.now reply.now)) }
{
    push_word(line, b"reply is")?;
    push_reply(line, model, reply)?;
    Ok(())
}

#[tactic(auto, using(crate::proofs::Texts::line_begun))]
fn reply_line(
    alloc: Global,
    model: &Model,
    number: u32,
    reply: &Reply,
) -> Result<Vec<u8>, AllocError>
    ensures { IfOk result (λ line. line.items ≡ wrong_line number (codes "reply is" ∷ reply_words model.now reply.now)) }
{
    let mut line = wrong_label(alloc, number)?;
    push_reply_words(&mut line, model, reply)?;
    line.push(b'\n')?;
    Ok(line)
}

/// The line that says what a journal is. Names are those of the model.
pub fn verdict_line(alloc: Global, model: &Model, verdict: &Verdict) -> Result<Vec<u8>, AllocError>
    ensures { IfOk result (λ line. line.items ≡ verdict_line model.now verdict.now) }
{
    match verdict {
        Verdict::Legal { entries, done } => legal_line(alloc, *entries, *done),
        Verdict::NotALine(number) => wrong_line(alloc, *number, b"not a line"),
        Verdict::NotNow(number) => wrong_line(alloc, *number, b"not now"),
        Verdict::Full(number) => wrong_line(alloc, *number, b"log full"),
        Verdict::OtherReply(number, reply) => reply_line(alloc, model, *number, reply),
    }
}

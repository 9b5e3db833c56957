ghost use Rattle.std.specs.Prelude.{◌≡◌, [], ◌∷◌, ◌++◌, OnOk, codes};
ghost use Rattle.pl_journal.specs.Rendering.Words.{spaced};
ghost use Rattle.pl_journal.specs.Rendering.Lines.{options_words, reply_words, input_words, fix_words, commit_words, event_words};

use crate::rendering::conflicts::push_conflict;
use crate::rendering::moves::push_move;
use crate::rendering::pushing::{push_labelled, push_word};
use crate::rendering::replies::push_reply;
use pl_conflict::Conflict;
use pl_entry::{Bytes, Event, Reply};
use pl_facts::Options;
use pl_model::Model;
use pl_plan::RepairMove;
use std::alloc::AllocError;

#[tactic(auto, using(crate::proofs::AboutRendering::Texts::words_joined))]
fn push_options(out: &mut Vec<u8>, options: &Options) -> Result<(), AllocError>
    ensures { OnOk result (out.new.items ≡ out.old.items ++ spaced (options_words options.now)) }
{
    push_word(out, b"open")?;
    push_labelled(out, b"turns", options.turns)?;
    push_labelled(out, b"live", options.live)?;
    push_labelled(out, b"goals", options.goals)?;
    push_labelled(out, b"entries", options.entries)?;
    Ok(())
}

/// Appends a word, and the reply behind it.
#[tactic(auto, using(crate::proofs::AboutRendering::Texts::words_joined))]
fn push_answered(
    out: &mut Vec<u8>,
    word: &[u8],
    model: &Model,
    reply: &Reply,
) -> Result<(), AllocError>
    ensures { OnOk result (out.new.items ≡ out.old.items ++ spaced (word.now ∷ reply_words model.now reply.now)) }
{
    push_word(out, word)?;
    push_reply(out, model, reply)?;
    Ok(())
}

#[tactic(auto, using(crate::proofs::AboutRendering::Texts::words_joined))]
fn push_message(
    out: &mut Vec<u8>,
    model: &Model,
    line: &Bytes,
    reply: &Reply,
) -> Result<(), AllocError>
    ensures { OnOk result (out.new.items ≡ out.old.items ++ spaced (input_words model.now (Some line.now) reply.now)) }
{
    push_answered(out, b"in", model, reply)?;
    push_word(out, b":")?;
    push_word(out, line.as_slice())?;
    Ok(())
}

#[tactic(auto, using(crate::proofs::AboutRendering::Texts::words_joined))]
fn push_end(out: &mut Vec<u8>) -> Result<(), AllocError>
    ensures { OnOk result (out.new.items ≡ out.old.items ++ spaced (codes "in" ∷ codes "eof" ∷ [])) }
{
    push_word(out, b"in")?;
    push_word(out, b"eof")?;
    Ok(())
}

fn push_input(
    out: &mut Vec<u8>,
    model: &Model,
    line: &Option<Bytes>,
    reply: &Reply,
) -> Result<(), AllocError>
    ensures { OnOk result (out.new.items ≡ out.old.items ++ spaced (input_words model.now line.now reply.now)) }
{
    match line {
        Some(bytes) => push_message(out, model, bytes, reply),
        None => push_end(out),
    }
}

#[tactic(auto, using(crate::proofs::AboutRendering::Texts::words_joined))]
fn push_fix(
    out: &mut Vec<u8>,
    model: &Model,
    conflict: &Conflict,
    repair: RepairMove,
    reply: &Reply,
) -> Result<(), AllocError>
    ensures { OnOk result (out.new.items ≡ out.old.items ++ spaced (fix_words model.now conflict.now repair reply.now)) }
{
    push_word(out, b"fix")?;
    push_conflict(out, conflict)?;
    push_word(out, b"by")?;
    push_move(out, model, repair)?;
    push_answered(out, b":", model, reply)?;
    Ok(())
}

#[tactic(auto, using(crate::proofs::AboutRendering::Texts::words_joined))]
fn push_commit(
    out: &mut Vec<u8>,
    model: &Model,
    moment: u32,
    reply: &Reply,
) -> Result<(), AllocError>
    ensures { OnOk result (out.new.items ≡ out.old.items ++ spaced (commit_words model.now moment reply.now)) }
{
    push_labelled(out, b"commit", moment)?;
    push_answered(out, b":", model, reply)?;
    Ok(())
}

/// Appends an event and its reply.
pub fn push_event(
    out: &mut Vec<u8>,
    model: &Model,
    event: &Event,
    reply: &Reply,
) -> Result<(), AllocError>
    ensures { OnOk result (out.new.items ≡ out.old.items ++ spaced (event_words model.now event.now reply.now)) }
{
    match event {
        Event::Opened(options) => push_options(out, options),
        Event::Input(line) => push_input(out, model, line, reply),
        Event::Fix(conflict, repair) => push_fix(out, model, conflict, *repair, reply),
        Event::Rest => push_answered(out, b"rest", model, reply),
        Event::Commit(moment) => push_commit(out, model, *moment, reply),
        Event::Dispatch => push_answered(out, b"dispatch", model, reply),
        Event::Close => push_word(out, b"close"),
    }
}

ghost use Rattle.std.specs.Prelude.{◌≡◌, ◌∷◌, ◌++◌, OnOk, codes};
ghost use Rattle.pl_journal.specs.Rendering.Words.{spaced};
ghost use Rattle.pl_journal.specs.Rendering.Lines.{conflict_words, reason_word, reply_words};

use crate::rendering::commands::push_command;
use crate::rendering::conflicts::push_conflict;
use crate::rendering::pushing::{push_labelled, push_word};
use pl_conflict::Conflict;
use pl_entry::{Reason, Reply};
use pl_model::Model;
use std::alloc::AllocError;

fn reason_word(reason: Reason) -> &'static str
    ensures { result.now ≡ reason_word reason }
{
    match reason {
        Reason::Clear => "clear",
        Reason::Spent => "spent",
        Reason::Stuck => "stuck",
    }
}

#[tactic(auto, using(crate::proofs::AboutRendering::Texts::words_joined))]
fn push_held(out: &mut Vec<u8>, conflict: &Conflict) -> Result<(), AllocError>
    ensures { OnOk result (out.new.items ≡ out.old.items ++ spaced (codes "held" ∷ conflict_words conflict.now)) }
{
    push_word(out, b"held")?;
    push_conflict(out, conflict)?;
    Ok(())
}

/// Appends a reply.
pub fn push_reply(out: &mut Vec<u8>, model: &Model, reply: &Reply) -> Result<(), AllocError>
    ensures { OnOk result (out.new.items ≡ out.old.items ++ spaced (reply_words model.now reply.now)) }
{
    match reply {
        Reply::Done => push_word(out, b"ok"),
        Reply::Ended => push_word(out, b"end"),
        Reply::BadLine => push_word(out, b"bad-line"),
        Reply::UnknownName => push_word(out, b"unknown-name"),
        Reply::Range => push_word(out, b"range"),
        Reply::DuplicateGoal => push_word(out, b"duplicate-goal"),
        Reply::TooLate => push_word(out, b"too-late"),
        Reply::TickBack => push_word(out, b"tick-back"),
        Reply::TickBeyond => push_word(out, b"tick-beyond"),
        Reply::TooManyGoals => push_word(out, b"too-many-goals"),
        Reply::NotBegun => push_word(out, b"not-begun"),
        Reply::EndBack => push_word(out, b"end-back"),
        Reply::Stale => push_word(out, b"stale"),
        Reply::NotFor => push_word(out, b"not-for"),
        Reply::Locked(id) => push_labelled(out, b"locked", *id),
        Reply::Behind(id) => push_labelled(out, b"behind", *id),
        Reply::Beyond(id) => push_labelled(out, b"beyond", *id),
        Reply::Full => push_word(out, b"full"),
        Reply::Rested(reason) => push_word(out, reason_word(*reason).as_bytes()),
        Reply::CommitBehind => push_word(out, b"behind"),
        Reply::CommitBeyond => push_word(out, b"beyond"),
        Reply::Held(conflict) => push_held(out, conflict),
        Reply::Sent {
            id,
            kind,
            start,
            values,
        } => push_command(out, model, *id, *kind, *start, values.as_slice()),
    }
}

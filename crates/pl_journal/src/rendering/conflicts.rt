ghost use Rattle.std.specs.Prelude.{◌≡◌, ◌++◌, OnOk};
ghost use Rattle.pl_journal.specs.Rendering.Words.{spaced};
ghost use Rattle.pl_journal.specs.Rendering.Lines.{code_word, conflict_words};

use crate::rendering::pushing::{push_count, push_word};
use pl_conflict::{Code, Conflict};
use std::alloc::AllocError;

fn code_word(code: Code) -> &'static str
    ensures { result.now ≡ code_word code }
{
    match code {
        Code::OpenGoal => "open-goal",
        Code::OffGoal => "off-goal",
        Code::Late => "late",
        Code::Unset => "unset",
        Code::BadValue => "bad-value",
        Code::Undetailed => "undetailed",
        Code::Overrun => "overrun",
        Code::Temporal => "temporal",
        Code::Linked => "link",
        Code::Over => "over",
        Code::Low => "low",
        Code::High => "high",
        Code::Must => "must",
        Code::BadStep => "bad-step",
    }
}

/// Appends a conflict: its moment, its code, its subject and its three details.
#[tactic(auto, using(crate::proofs::AboutRendering::Texts::words_joined))]
pub fn push_conflict(out: &mut Vec<u8>, conflict: &Conflict) -> Result<(), AllocError>
    ensures { OnOk result (out.new.items ≡ out.old.items ++ spaced (conflict_words conflict.now)) }
{
    push_count(out, conflict.from)?;
    push_word(out, code_word(conflict.code).as_bytes())?;
    push_count(out, conflict.subject)?;
    push_count(out, conflict.detail)?;
    push_count(out, conflict.a)?;
    push_count(out, conflict.b)?;
    Ok(())
}

ghost use Rattle.std.specs.Prelude.{◌≡◌, [], ◌∷◌, ◌++◌, OnOk, decimal};
ghost use Rattle.std.specs.Fmt.{signed_decimal};
ghost use Rattle.pl_journal.specs.Rendering.Words.{spaced};
ghost use Rattle.pl_report.specs.Reports.{heading_words, heading_line};

use pl_journal::{push_labelled, push_word};
use pl_semantics::PlanState;
use pl_text::push_number;
use std::alloc::AllocError;

/// Appends a blank and a count.
#[tactic(auto, using(pl_journal::proofs::AboutRendering::Texts::word_joined))]
pub(crate) fn push_length(text: &mut Vec<u8>, count: usize) -> Result<(), AllocError>
    ensures { OnOk result (text.new.items ≡ text.old.items ++ spaced (decimal count ∷ [])) }
{
    text.extend_from_slice(b" ")?;
    let alloc = *text.allocator();
    let digits = count.to_string(alloc)?;
    text.extend_from_slice(digits.as_bytes())?;
    Ok(())
}

/// Appends a blank and a value.
#[tactic(auto, using(pl_journal::proofs::AboutRendering::Texts::word_joined))]
pub(crate) fn push_value(text: &mut Vec<u8>, value: i64) -> Result<(), AllocError>
    ensures { OnOk result (text.new.items ≡ text.old.items ++ spaced (signed_decimal value ∷ [])) }
{
    text.extend_from_slice(b" ")?;
    push_number(text, value)?;
    Ok(())
}

/// Appends a word and a count.
#[tactic(auto, using(pl_journal::proofs::AboutRendering::Texts::words_joined))]
fn push_counted(text: &mut Vec<u8>, label: &[u8], count: usize) -> Result<(), AllocError>
    ensures { OnOk result (text.new.items ≡ text.old.items ++ spaced (label.now ∷ decimal count ∷ [])) }
{
    push_word(text, label)?;
    push_length(text, count)?;
    Ok(())
}

#[tactic(auto, using(pl_journal::proofs::AboutRendering::Texts::words_joined))]
fn push_heading_words(
    text: &mut Vec<u8>,
    entries: usize,
    state: &PlanState,
    dispatched: usize,
    conflicts: usize,
) -> Result<(), AllocError>
    ensures { OnOk result (text.new.items ≡ text.old.items ++ spaced (heading_words entries state.now dispatched conflicts)) }
{
    push_counted(text, b"entries", entries)?;
    push_labelled(text, b"now", state.moment)?;
    push_labelled(text, b"committed", state.committed)?;
    push_counted(text, b"dispatched", dispatched)?;
    push_counted(text, b"conflicts", conflicts)?;
    Ok(())
}

/// Appends the line that says how far things are, by the counts of entries, commands and conflicts.
#[tactic(auto, using(crate::proofs::Texts::line_joined))]
pub(crate) fn push_heading(
    text: &mut Vec<u8>,
    entries: usize,
    state: &PlanState,
    dispatched: usize,
    conflicts: usize,
) -> Result<(), AllocError>
    ensures { OnOk result (text.new.items ≡ text.old.items ++ heading_line entries state.now dispatched conflicts) }
{
    text.extend_from_slice(b"report")?;
    push_heading_words(text, entries, state, dispatched, conflicts)?;
    text.push(b'\n')?;
    Ok(())
}

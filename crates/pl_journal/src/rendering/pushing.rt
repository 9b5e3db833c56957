ghost use Rattle.std.specs.Prelude.{◌≡◌, [], ◌∷◌, ◌++◌, OnOk, decimal};
ghost use Rattle.std.specs.Fmt.{signed_decimal};
ghost use Rattle.pl_journal.specs.Rendering.Words.{spaced};

use pl_text::push_number;
use std::alloc::AllocError;

/// Appends a blank and a word.
#[tactic(auto, using(crate::proofs::AboutRendering::Texts::word_joined))]
pub fn push_word(out: &mut Vec<u8>, word: &[u8]) -> Result<(), AllocError>
    ensures { OnOk result (out.new.items ≡ out.old.items ++ spaced (word.now ∷ [])) }
{
    out.extend_from_slice(b" ")?;
    out.extend_from_slice(word)?;
    Ok(())
}

/// Appends a blank and a value.
#[tactic(auto, using(crate::proofs::AboutRendering::Texts::word_joined))]
pub fn push_value(out: &mut Vec<u8>, value: i64) -> Result<(), AllocError>
    ensures { OnOk result (out.new.items ≡ out.old.items ++ spaced (signed_decimal value ∷ [])) }
{
    out.extend_from_slice(b" ")?;
    push_number(out, value)?;
    Ok(())
}

/// Appends a blank and a number.
pub fn push_count(out: &mut Vec<u8>, number: u32) -> Result<(), AllocError>
    ensures { OnOk result (out.new.items ≡ out.old.items ++ spaced (decimal number ∷ [])) }
{
    push_value(out, i64::from(number))?;
    Ok(())
}

/// Appends a word and a number.
#[tactic(auto, using(crate::proofs::AboutRendering::Texts::words_joined))]
pub fn push_labelled(out: &mut Vec<u8>, label: &[u8], number: u32) -> Result<(), AllocError>
    ensures { OnOk result (out.new.items ≡ out.old.items ++ spaced (label.now ∷ decimal number ∷ [])) }
{
    push_word(out, label)?;
    push_count(out, number)?;
    Ok(())
}

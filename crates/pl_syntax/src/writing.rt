ghost use Rattle.std.specs.Prelude.{◌≡◌, ℕ, List, IfOk};
ghost use Rattle.pl_syntax.specs.Answers.{ReadsText};
ghost use Rattle.pl_syntax.specs.Canonical.{canonical_text};

use crate::whole::Ast;
use crate::writer::{lay_out, model_tokens};
use std::alloc::{AllocError, Global};

/// The canonical text of a tree. Where the tree was read from some text, its canonical text is read as that tree.
pub fn write_model(alloc: Global, ast: &Ast) -> Result<Vec<u8>, AllocError>
    ensures canonical { IfOk result (λ written. written.items ≡ canonical_text ast.now) }
    ensures again { IfOk result (λ written. (text : List ℕ) → ReadsText text ast.now → ReadsText written.items ast.now) }
{
    let tokens = model_tokens(alloc, ast)?;
    let text = lay_out(alloc, tokens.as_slice())?;
    Ok(text)
}

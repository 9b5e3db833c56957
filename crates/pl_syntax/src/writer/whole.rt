ghost use Rattle.std.specs.Prelude.{◌≡◌, IfOk};
ghost use Rattle.pl_syntax.specs.Canonical.{item_tokens, model_tokens};

use super::{Written, push_each, push_number, push_word};
use crate::Token;
use crate::whole::{Ast, Item};
use pl_lists::Items;
use pl_text::Word;
use std::alloc::{AllocError, Global};

impl Written for Item {
    ghost tokens = { item_tokens };

    fn push(&self, alloc: Global, out: &mut Items<Token>) -> Result<(), AllocError> {
        match self {
            Item::Timeline(timeline) => {
                timeline.push(alloc, out)?;
                Ok(())
            }
            Item::Kind(kind) => {
                kind.push(alloc, out)?;
                Ok(())
            }
        }
    }
}

/// The tokens of the canonical text.
#[tactic(auto, unfolding(crate::specs::Canonical::model_tokens))]
pub fn model_tokens(alloc: Global, ast: &Ast) -> Result<Items<Token>, AllocError>
    ensures { IfOk result (λ tokens. tokens ≡ model_tokens ast.now) }
{
    let mut out = Items::new(alloc);
    push_word(Word::Horizon, &mut out)?;
    push_number(ast.horizon, &mut out)?;
    push_word(Word::Lead, &mut out)?;
    push_number(ast.lead, &mut out)?;
    push_each(ast.items.as_slice(), alloc, &mut out)?;
    Ok(out)
}

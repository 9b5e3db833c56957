ghost use Rattle.std.specs.Prelude.{List, ◌≡◌, ◌++◌, ◌∷◌, [], flat_map, OnOk};
ghost use Rattle.pl_syntax.specs.declared.token.Token.{Token};
ghost use Rattle.pl_syntax.specs.declared.token.Token.TheVariants as token;
ghost use Rattle.pl_syntax.specs.Forms.{point_token, place_token};

mod alternatives;
mod expressions;
mod kinds;
mod layout;
mod timelines;
mod whole;

use crate::{Symbol, Token};
pub use layout::lay_out;
use pl_lists::{Copied, Items};
use pl_model::{Name, Point};
use pl_text::Word;
use std::alloc::{AllocError, Global};
pub use whole::model_tokens;

/// What is written as tokens, one behind another.
trait Written {
    ghost tokens: { Self → List Token };

    fn push(&self, alloc: Global, out: &mut Items<Token>) -> Result<(), AllocError>
        ensures { OnOk result (out.new ≡ out.old ++ tokens self.now) };
}

fn push_each<T: Written>(
    items: &[T],
    alloc: Global,
    out: &mut Items<Token>,
) -> Result<(), AllocError>
    ensures { OnOk result (out.new ≡ out.old ++ flat_map T.tokens items.now) }
{
    for item in items {
        item.push(alloc, out)?;
    }
    Ok(())
}

fn push_word(word: Word, out: &mut Items<Token>) -> Result<(), AllocError>
    ensures { OnOk result (out.new ≡ out.old ++ token.Word word ∷ []) }
{
    out.push(Token::Word(word))?;
    Ok(())
}

fn push_symbol(symbol: Symbol, out: &mut Items<Token>) -> Result<(), AllocError>
    ensures { OnOk result (out.new ≡ out.old ++ token.Symbol symbol ∷ []) }
{
    out.push(Token::Symbol(symbol))?;
    Ok(())
}

fn push_number(number: i64, out: &mut Items<Token>) -> Result<(), AllocError>
    ensures { OnOk result (out.new ≡ out.old ++ token.Number number ∷ []) }
{
    out.push(Token::Number(number))?;
    Ok(())
}

fn push_name(name: &Name, alloc: Global, out: &mut Items<Token>) -> Result<(), AllocError>
    ensures { OnOk result (out.new ≡ out.old ++ token.Name name.now ∷ []) }
{
    let name = name.copy(alloc)?;
    out.push(Token::Name(name))?;
    Ok(())
}

fn push_point(point: Point, out: &mut Items<Token>) -> Result<(), AllocError>
    ensures { OnOk result (out.new ≡ out.old ++ point_token point ∷ []) }
{
    match point {
        Point::Start => push_word(Word::Start, out),
        Point::End => push_word(Word::End, out),
    }
}

fn push_place(place: &Option<Name>, alloc: Global, out: &mut Items<Token>) -> Result<(), AllocError>
    ensures { OnOk result (out.new ≡ out.old ++ place_token place.now ∷ []) }
{
    match place {
        Some(name) => push_name(name, alloc, out),
        None => push_word(Word::Parent, out),
    }
}

impl Written for Name {
    ghost use Rattle.pl_syntax.specs.Canonical.{name_tokens};

    ghost tokens = { name_tokens };

    fn push(&self, alloc: Global, out: &mut Items<Token>) -> Result<(), AllocError> {
        push_name(self, alloc, out)?;
        Ok(())
    }
}

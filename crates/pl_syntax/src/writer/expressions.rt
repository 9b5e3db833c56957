ghost use Rattle.std.specs.Prelude.{◌≡◌, ◌++◌, OnOk};
ghost use Rattle.pl_syntax.specs.Canonical.{between, front, expr_tokens};

use super::{Written, push_name, push_number, push_symbol, push_word};
use crate::expressions::AstExpr;
use crate::{Symbol, Token};
use pl_lists::Items;
use pl_model::Op;
use pl_text::Word;
use std::alloc::{AllocError, Global};

fn between(op: Op) -> Symbol
    ensures { result ≡ between op }
{
    match op {
        Op::Add => Symbol::Plus,
        Op::Sub => Symbol::Minus,
        Op::Mul => Symbol::Times,
        Op::Min | Op::Max => Symbol::Comma,
    }
}

fn push_front(op: Op, out: &mut Items<Token>) -> Result<(), AllocError>
    ensures { OnOk result (out.new ≡ out.old ++ front op) }
{
    match op {
        Op::Min => push_word(Word::Min, out)?,
        Op::Max => push_word(Word::Max, out)?,
        _ => {}
    }
    push_symbol(Symbol::Open, out)?;
    Ok(())
}

fn push_expr(tree: &AstExpr, alloc: Global, out: &mut Items<Token>) -> Result<(), AllocError>
    ensures { OnOk result (out.new ≡ out.old ++ expr_tokens tree.now) }
{
    match tree {
        AstExpr::Num(number) => {
            push_number(*number, out)?;
            Ok(())
        }
        AstExpr::Name(name) => {
            push_name(name, alloc, out)?;
            Ok(())
        }
        AstExpr::Apply(op, left, right) => {
            push_front(*op, out)?;
            push_expr(left.get(), alloc, out)?;
            push_symbol(between(*op), out)?;
            push_expr(right.get(), alloc, out)?;
            push_symbol(Symbol::Close, out)?;
            Ok(())
        }
    }
}

impl Written for AstExpr {
    ghost tokens = { expr_tokens };

    fn push(&self, alloc: Global, out: &mut Items<Token>) -> Result<(), AllocError> {
        push_expr(self, alloc, out)?;
        Ok(())
    }
}

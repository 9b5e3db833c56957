ghost use Rattle.std.specs.Prelude.{List, ◌≡◌, ◌≤◌, ◌<◌, ◌^◌, ◌+◌, length, IfOk, IfErr};
ghost use Rattle.pl_syntax.specs.declared.token.Token.TheVariants as token;
ghost use Rattle.pl_syntax.specs.declared.symbol.Symbol.TheVariants as symbol;
ghost use Rattle.pl_model.specs.declared.expressions.Op.TheVariants as ops;
ghost use Rattle.pl_syntax.specs.declared.fault.Stopped.TheVariants.{Memory};
ghost use Rattle.pl_syntax.specs.Parsing.{natural_of};
ghost use Rattle.pl_syntax.specs.Expressions.{apply, Pick, pick_op, pick_token};
ghost use Rattle.pl_syntax.specs.ReadingExpressions.{leaf_of, group_by, operand, eats_sign, inner_at, group_with, pick_with, factor_with, products_by, sums_by, term_with, expr_at};
ghost use Rattle.pl_syntax.specs.Gives.{Gives};

use super::Reader;
use crate::expressions::AstExpr;
use crate::fault::Stopped;
use crate::{Symbol, Token};
use pl_lists::{Boxed, Copied};
use pl_model::Op;
use pl_text::Word;
use std::alloc::Global;

fn applied(
    alloc: Global,
    op: Op,
    left: (AstExpr, u32),
    right: (AstExpr, u32),
) -> Result<(AstExpr, u32), Stopped>
    requires left { left.1 < 2 ^ 31 }
    requires right { right.1 < 2 ^ 31 }
    ensures value { IfOk result (λ x. x ≡ apply op left right) }
    ensures memory { IfErr result (λ e. e ≡ Memory) }
{
    let (first, first_levels) = left;
    let (second, second_levels) = right;
    let tree = AstExpr::Apply(op, Boxed::new(alloc, first)?, Boxed::new(alloc, second)?);
    Ok((tree, first_levels.max(second_levels) + 1))
}

impl<'a> Reader<'a> {
    fn eat_sign(&mut self) -> Option<Op>
        ensures { (result, self.new.rest.now) ≡ eats_sign self.old.rest.now }
    {
        match self.rest {
            [Token::Symbol(Symbol::Plus), rest @ ..] => {
                self.rest = rest;
                Some(Op::Add)
            }
            [Token::Symbol(Symbol::Minus), rest @ ..] => {
                self.rest = rest;
                Some(Op::Sub)
            }
            _ => None,
        }
    }

    fn numeral(&mut self, number: i64, rest: &'a [Token]) -> Result<(AstExpr, u32), Stopped>
        requires { length rest.now + 1 < 2 ^ 64 }
        ensures reads { Gives result self.new.rest.now (leaf_of (natural_of number) (token.Number number) rest.now) }
        ensures low { IfOk result (λ x. x.1 ≡ 1) }
    {
        let value = self.take_number(number, rest)?;
        Ok((AstExpr::Num(value as i64), 1))
    }

    /// An expression and the bracket that closes it.
    #[cycle(expr)]
    fn closed(&mut self, levels: u32, brackets: u32) -> Result<(AstExpr, u32), Stopped>
        requires { (1 ≤ levels) × (levels < 2 ^ 31) }
        ensures reads { Gives result self.new.rest.now (group_by (expr_at brackets levels) self.old.rest.now) }
        ensures low { IfOk result (λ x. (1 ≤ x.1) × (x.1 ≤ levels)) }
    {
        let tree = self.expr(levels, brackets)?;
        self.expect_symbol(Symbol::Close)?;
        Ok(tree)
    }

    /// A group, behind its bracket.
    #[cycle(expr)]
    fn group(
        &mut self,
        inside: &'a [Token],
        levels: u32,
        brackets: u32,
    ) -> Result<(AstExpr, u32), Stopped>
        requires { (1 ≤ levels) × (levels < 2 ^ 31) }
        ensures reads { Gives result self.new.rest.now (group_with (inner_at brackets) levels (token.Symbol symbol.Open) inside.now) }
        ensures low { IfOk result (λ x. (1 ≤ x.1) × (x.1 ≤ levels)) }
    {
        if brackets == 0 {
            return Err(Stopped::TooDeep(inside.len() + 1));
        }
        self.rest = inside;
        self.closed(levels, brackets - 1)
    }

    /// `min` or `max`, behind the word.
    #[cycle(expr)]
    fn pick(
        &mut self,
        op: Op,
        inside: &'a [Token],
        levels: u32,
        brackets: u32,
    ) -> Result<(AstExpr, u32), Stopped>
        requires { (1 ≤ levels) × (levels < 2 ^ 31) }
        ensures reads { (p : Pick) → op ≡ pick_op p → Gives result self.new.rest.now (pick_with (inner_at brackets) levels p (pick_token p) inside.now) }
        ensures low { IfOk result (λ x. (1 ≤ x.1) × (x.1 ≤ levels)) }
    {
        if brackets == 0 || levels < 2 {
            return Err(Stopped::TooDeep(inside.len() + 1));
        }
        self.rest = inside;
        self.expect_symbol(Symbol::Open)?;
        let first = self.expr(levels - 1, brackets - 1)?;
        self.expect_symbol(Symbol::Comma)?;
        let second = self.closed(levels - 1, brackets - 1)?;
        let tree = applied(self.alloc, op, first, second)?;
        Ok(tree)
    }

    #[cycle(expr)]
    #[tactic(auto, unfolding(crate::specs::ReadingExpressions::factor_with))]
    fn factor(&mut self, levels: u32, brackets: u32) -> Result<(AstExpr, u32), Stopped>
        requires { (1 ≤ levels) × (levels < 2 ^ 31) }
        ensures reads { Gives result self.new.rest.now (factor_with (inner_at brackets) levels self.old.rest.now) }
        ensures low { IfOk result (λ x. (1 ≤ x.1) × (x.1 ≤ levels)) }
    {
        match self.rest {
            [Token::Number(number), rest @ ..] => self.numeral(*number, rest),
            [Token::Name(name), rest @ ..] => {
                let name = name.copy(self.alloc)?;
                self.rest = rest;
                Ok((AstExpr::Name(name), 1))
            }
            [Token::Symbol(Symbol::Open), rest @ ..] => self.group(rest, levels, brackets),
            [Token::Word(Word::Min), rest @ ..] => self.pick(Op::Min, rest, levels, brackets),
            [Token::Word(Word::Max), rest @ ..] => self.pick(Op::Max, rest, levels, brackets),
            _ => Err(Stopped::Unexpected(self.rest.len())),
        }
    }

    /// The product with the factor behind a `*`.
    #[cycle(expr)]
    #[tactic(auto, unfolding(crate::specs::ReadingExpressions::operand))]
    fn multiplied(
        &mut self,
        left: (AstExpr, u32),
        levels: u32,
        brackets: u32,
    ) -> Result<(AstExpr, u32), Stopped>
        requires { (1 ≤ left.1) × (left.1 ≤ levels) × (levels < 2 ^ 31) }
        ensures reads { Gives result self.new.rest.now (operand levels ops.Mul left (factor_with (inner_at brackets)) self.old.rest.now) }
        ensures low { IfOk result (λ x. (1 ≤ x.1) × (x.1 ≤ levels)) }
    {
        if left.1 >= levels {
            return Err(Stopped::TooDeep(self.rest.len() + 1));
        }
        let right = self.factor(levels - 1, brackets)?;
        let tree = applied(self.alloc, Op::Mul, left, right)?;
        Ok(tree)
    }

    /// The products behind a factor.
    #[cycle(expr)]
    #[tactic(auto, using(crate::proofs::ExprTurns::products_goes, crate::proofs::ExprTurns::products_fails, crate::proofs::ExprTurns::products_stops, crate::proofs::ExprTurns::products_ends))]
    fn products(
        &mut self,
        left: (AstExpr, u32),
        levels: u32,
        brackets: u32,
    ) -> Result<(AstExpr, u32), Stopped>
        requires { (1 ≤ left.1) × (left.1 ≤ levels) × (levels < 2 ^ 31) }
        ensures reads { Gives result self.new.rest.now (products_by (factor_with (inner_at brackets)) (length self.old.rest.now) levels left self.old.rest.now) }
        ensures low { IfOk result (λ x. (1 ≤ x.1) × (x.1 ≤ levels)) }
    {
        let mut left = left;
        'products: for _ in 0..self.rest.len() {
            if !self.eat_symbol(Symbol::Times) {
                return Ok(left);
            }
            left = self.multiplied(left, levels, brackets)?;
        }
        Ok(left)
    }

    #[cycle(expr)]
    #[tactic(auto, unfolding(crate::specs::ReadingExpressions::term_with))]
    fn term(&mut self, levels: u32, brackets: u32) -> Result<(AstExpr, u32), Stopped>
        requires { (1 ≤ levels) × (levels < 2 ^ 31) }
        ensures reads { Gives result self.new.rest.now (term_with (inner_at brackets) levels self.old.rest.now) }
        ensures low { IfOk result (λ x. (1 ≤ x.1) × (x.1 ≤ levels)) }
    {
        let left = self.factor(levels, brackets)?;
        self.products(left, levels, brackets)
    }

    /// The sum or difference with the term behind the sign.
    #[cycle(expr)]
    #[tactic(auto, unfolding(crate::specs::ReadingExpressions::operand))]
    fn summed(
        &mut self,
        op: Op,
        left: (AstExpr, u32),
        levels: u32,
        brackets: u32,
    ) -> Result<(AstExpr, u32), Stopped>
        requires { (1 ≤ left.1) × (left.1 ≤ levels) × (levels < 2 ^ 31) }
        ensures reads { Gives result self.new.rest.now (operand levels op left (term_with (inner_at brackets)) self.old.rest.now) }
        ensures low { IfOk result (λ x. (1 ≤ x.1) × (x.1 ≤ levels)) }
    {
        if left.1 >= levels {
            return Err(Stopped::TooDeep(self.rest.len() + 1));
        }
        let right = self.term(levels - 1, brackets)?;
        let tree = applied(self.alloc, op, left, right)?;
        Ok(tree)
    }

    /// The sums behind a term.
    #[cycle(expr)]
    #[tactic(auto, using(crate::proofs::ExprTurns::sums_goes, crate::proofs::ExprTurns::sums_fails, crate::proofs::ExprTurns::sums_stops, crate::proofs::ExprTurns::sums_ends))]
    fn sums(
        &mut self,
        left: (AstExpr, u32),
        levels: u32,
        brackets: u32,
    ) -> Result<(AstExpr, u32), Stopped>
        requires { (1 ≤ left.1) × (left.1 ≤ levels) × (levels < 2 ^ 31) }
        ensures reads { Gives result self.new.rest.now (sums_by (term_with (inner_at brackets)) (length self.old.rest.now) levels left self.old.rest.now) }
        ensures low { IfOk result (λ x. (1 ≤ x.1) × (x.1 ≤ levels)) }
    {
        let mut left = left;
        'sums: for _ in 0..self.rest.len() {
            match self.eat_sign() {
                None => return Ok(left),
                Some(op) => {
                    left = self.summed(op, left, levels, brackets)?;
                }
            }
        }
        Ok(left)
    }

    /// Takes an expression of at most so many levels, with brackets at most so deep, and tells how many levels it has.
    #[cycle(expr)]
    #[tactic(auto, using(crate::proofs::ExprExact::expr_at_is), unfolding(crate::specs::ReadingExpressions::expr_with))]
    pub fn expr(&mut self, levels: u32, brackets: u32) -> Result<(AstExpr, u32), Stopped>
        requires { (1 ≤ levels) × (levels < 2 ^ 31) }
        ensures reads { Gives result self.new.rest.now (expr_at brackets levels self.old.rest.now) }
        ensures low { IfOk result (λ x. (1 ≤ x.1) × (x.1 ≤ levels)) }
    {
        let left = self.term(levels, brackets)?;
        self.sums(left, levels, brackets)
    }
}

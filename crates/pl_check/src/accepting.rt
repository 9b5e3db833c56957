ghost use Rattle.std.specs.Prelude.{ℕ, ◌<◌, List, length, IfOk, Ok, Err};
ghost use Rattle.pl_syntax.specs.Answers.{longest, Answers as Read};
ghost use Rattle.pl_check.specs.Checked.{Answers as Checked};
ghost use Rattle.pl_check.specs.Accepting.{Accepts, HoldsChecked};

use crate::refusals::{fault_line, is_want, is_want_in_syntax, syntax_line};
use crate::{ModelFault, check};
use pl_lists::Items;
use pl_model::Model;
use pl_syntax::{Ast, SyntaxFault, read_model};
use std::alloc::{AllocError, Global};

/// What a text is: a model's, or refused with a line that ends in a newline.
#[derive(Drop)]
pub enum Accepted {
    Model(Model),
    Refused(Items<u8>),
}

/// What a text is that has more bytes than a model's text may have.
#[tactic(auto, using(crate::proofs::Refusing::longer_is_refused))]
pub fn too_long(alloc: Global) -> Result<Accepted, AllocError>
    ensures accepts { IfOk result (λ accepted. (text : List ℕ) → longest < length text
        → Accepts text accepted) }
    ensures checked { IfOk result HoldsChecked }
{
    let line = syntax_line(alloc, SyntaxFault::TooLong)?;
    Ok(Accepted::Refused(line))
}

#[tactic(auto, using(crate::proofs::Refusing::syntax_refuses))]
fn refuse_text(alloc: Global, _text: &[u8], fault: SyntaxFault) -> Result<Accepted, AllocError>
    requires { Read _text.now (Err fault) }
    ensures accepts { IfOk result (Accepts _text.now) }
    ensures checked { IfOk result HoldsChecked }
{
    if is_want_in_syntax(fault) {
        return Err(AllocError);
    }
    let line = syntax_line(alloc, fault)?;
    Ok(Accepted::Refused(line))
}

#[tactic(auto, using(crate::proofs::Refusing::check_refuses))]
fn refuse_tree(
    alloc: Global,
    _text: &[u8],
    _ast: &Ast,
    fault: &ModelFault,
) -> Result<Accepted, AllocError>
    requires read { Read _text.now (Ok _ast.now) }
    requires checked { Checked _ast.now (Err fault.now) }
    ensures accepts { IfOk result (Accepts _text.now) }
    ensures checked { IfOk result HoldsChecked }
{
    if is_want(fault) {
        return Err(AllocError);
    }
    let line = fault_line(alloc, fault)?;
    Ok(Accepted::Refused(line))
}

#[tactic(auto, using(crate::proofs::Refusing::text_is_model))]
fn accept_tree(alloc: Global, text: &[u8], ast: &Ast) -> Result<Accepted, AllocError>
    requires { Read text.now (Ok ast.now) }
    ensures accepts { IfOk result (Accepts text.now) }
    ensures checked { IfOk result HoldsChecked }
{
    match check(alloc, ast) {
        Ok(model) => Ok(Accepted::Model(model)),
        Err(fault) => refuse_tree(alloc, text, ast, &fault),
    }
}

/// Reads a model's text and checks the model.
pub fn accept(alloc: Global, text: &[u8]) -> Result<Accepted, AllocError>
    ensures accepts { IfOk result (Accepts text.now) }
    ensures checked { IfOk result HoldsChecked }
{
    match read_model(alloc, text) {
        Ok(ast) => accept_tree(alloc, text, &ast),
        Err(fault) => refuse_text(alloc, text, fault),
    }
}

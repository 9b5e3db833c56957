ghost use Rattle.std.specs.Prelude.{◌≡◌, ◌<◌, ◌≤◌, ◌^◌, ◌-◌, length, IsErrOf, ◌↔◌};
ghost use Rattle.std.specs.List.{All};
ghost use Rattle.pl_syntax.specs.declared.whole.Ast.{Ast};
ghost use Rattle.pl_syntax.specs.Marks.{place_of, IsMarked};
ghost use Rattle.pl_syntax.specs.Answers.{longest, ReadsText, Answers, AnswersTokens, IsTree, fault_of, placed};

use crate::fault::{Stopped, SyntaxFault};
use crate::marks::{marks, place};
use crate::reader::Reader;
use crate::whole::Ast;
use pl_text::{TextFault, tokens};
use std::alloc::Global;

/// As many bytes a model text may have.
const LONGEST: usize = 1_048_576;

fn fault_of(fault: TextFault) -> SyntaxFault
    ensures { result ≡ fault_of fault }
{
    match fault {
        TextFault::BadByte(at) => SyntaxFault::BadByte(at),
        TextFault::BadNumber(at) => SyntaxFault::BadNumber(at),
        TextFault::BadName(at) => SyntaxFault::BadName(at),
        TextFault::Memory => SyntaxFault::Memory,
    }
}

fn stop_place(tokens: &[pl_text::Token], left: usize, end: u32) -> u32
    ensures { result ≡ place_of tokens.now (length tokens.now - left) end }
{
    place(tokens, tokens.len().saturating_sub(left), end)
}

fn placed(stopped: Stopped, tokens: &[pl_text::Token], end: u32) -> SyntaxFault
    ensures { result ≡ placed stopped tokens.now end }
{
    match stopped {
        Stopped::TooDeep(left) => SyntaxFault::TooDeep(stop_place(tokens, left, end)),
        Stopped::Unexpected(left) => SyntaxFault::Unexpected(stop_place(tokens, left, end)),
        Stopped::Memory => SyntaxFault::Memory,
    }
}

fn read_tokens(alloc: Global, text: &[u8], tokens: &[pl_text::Token]) -> Result<Ast, SyntaxFault>
    requires marked { All (IsMarked text.now) tokens.now }
    requires short { length text.now < 2 ^ 32 }
    ensures { AnswersTokens text.now tokens.now result }
{
    let marks = match marks(alloc, text, tokens) {
        Ok(marks) => marks,
        Err(_) => return Err(SyntaxFault::Memory),
    };
    let mut reader = Reader::new(alloc, marks.as_slice());
    match reader.all() {
        Ok(ast) => Ok(ast),
        Err(stopped) => Err(placed(stopped, tokens, text.len() as u32)),
    }
}

/// The tree of a model text.
pub fn read_model(alloc: Global, text: &[u8]) -> Result<Ast, SyntaxFault>
    ensures answers { Answers text.now result }
    ensures found { (ast : Ast) → length text.now ≤ longest → ReadsText text.now ast → IsTree ast result }
    ensures too_long { IsErrOf result SyntaxFault.TooLong ↔ (longest < length text.now) }
{
    if text.len() > LONGEST {
        return Err(SyntaxFault::TooLong);
    }
    match tokens(alloc, text) {
        Ok(tokens) => read_tokens(alloc, text, tokens.as_slice()),
        Err(fault) => Err(fault_of(fault)),
    }
}

ghost use Rattle.std.specs.Prelude.{◌≡◌, ◌++◌, ◌∷◌, [], OnOk, IfOk, decimal};
ghost use Rattle.pl_check.specs.Refusals.{syntax_text, what_word, fault_text, refusal_line, is_want_in_syntax, is_want};

use crate::{ModelFault, What};
use pl_lists::Items;
use pl_syntax::SyntaxFault;
use pl_text::push_number;
use std::alloc::{AllocError, Global};

fn push_words(out: &mut Vec<u8>, words: &[u8]) -> Result<(), AllocError>
    ensures { OnOk result (out.new.items ≡ out.old.items ++ words.now) }
{
    out.extend_from_slice(words)?;
    Ok(())
}

#[tactic(auto, using(crate::proofs::Texts::texts_joined))]
fn push_placed(out: &mut Vec<u8>, words: &[u8], at: u32) -> Result<(), AllocError>
    ensures { OnOk result (out.new.items ≡ out.old.items ++ (words.now ++ decimal at)) }
{
    push_words(out, words)?;
    push_number(out, i64::from(at))?;
    Ok(())
}

#[tactic(auto, using(crate::proofs::Texts::texts_joined))]
fn push_named(out: &mut Vec<u8>, words: &[u8], name: &[u8]) -> Result<(), AllocError>
    ensures { OnOk result (out.new.items ≡ out.old.items ++ (words.now ++ name.now)) }
{
    push_words(out, words)?;
    push_words(out, name)?;
    Ok(())
}

fn push_syntax(out: &mut Vec<u8>, fault: SyntaxFault) -> Result<(), AllocError>
    ensures { OnOk result (out.new.items ≡ out.old.items ++ syntax_text fault) }
{
    match fault {
        SyntaxFault::TooLong => push_words(out, b"too long"),
        SyntaxFault::BadByte(at) => push_placed(out, b"bad byte at ", at),
        SyntaxFault::BadNumber(at) => push_placed(out, b"bad number at ", at),
        SyntaxFault::BadName(at) => push_placed(out, b"bad name at ", at),
        SyntaxFault::TooDeep(at) => push_placed(out, b"too deep at ", at),
        SyntaxFault::Unexpected(at) => push_placed(out, b"unexpected at ", at),
        SyntaxFault::Memory => push_words(out, b"out of memory"),
    }
}

fn what_word(what: What) -> &'static str
    ensures { result.now ≡ what_word what }
{
    match what {
        What::Timelines => "timelines",
        What::States => "states",
        What::Kinds => "kinds",
        What::Params => "params",
        What::Reservations => "reservations",
        What::Links => "links",
        What::Alternatives => "alternatives",
        What::Slots => "slots",
        What::Orders => "orders",
        What::Nodes => "nodes",
        What::Horizon => "horizon",
        What::Lead => "lead",
        What::Capacity => "capacity",
        What::Level => "level",
        What::Param => "param",
        What::Link => "link",
        What::Order => "order",
        What::Literal => "literal",
        What::Duration => "duration",
    }
}

/// Appends words and a name, twice.
#[tactic(auto, using(crate::proofs::Texts::texts_joined))]
fn push_both(
    out: &mut Vec<u8>,
    words: &[u8],
    name: &[u8],
    more: &[u8],
    other: &[u8],
) -> Result<(), AllocError>
    ensures { OnOk result (out.new.items ≡ out.old.items ++ (words.now ++ (name.now ++ (more.now ++ other.now)))) }
{
    push_words(out, words)?;
    push_words(out, name)?;
    push_words(out, more)?;
    push_words(out, other)?;
    Ok(())
}

#[tactic(auto, using(crate::proofs::Texts::texts_joined))]
fn push_fault(out: &mut Vec<u8>, fault: &ModelFault) -> Result<(), AllocError>
    ensures { OnOk result (out.new.items ≡ out.old.items ++ fault_text fault.now) }
{
    match fault {
        ModelFault::Twice(name) => push_named(out, b"name twice: ", name.as_slice()),
        ModelFault::TooMany(what) => push_named(out, b"too many: ", what_word(*what).as_bytes()),
        ModelFault::Unknown(name) => push_named(out, b"unknown name: ", name.as_slice()),
        ModelFault::Range(what) => push_named(out, b"out of range: ", what_word(*what).as_bytes()),
        ModelFault::Circular(kind, param) => push_both(
            out,
            b"circular: kind ",
            kind.as_slice(),
            b", parameter ",
            param.as_slice(),
        ),
        ModelFault::Recursive(kind) => push_named(out, b"recursive: kind ", kind.as_slice()),
        ModelFault::NoSchedule(kind, alternative, _) => {
            push_named(out, b"no schedule: kind ", kind.as_slice())?;
            push_placed(out, b", alternative ", *alternative)
        }
        ModelFault::Memory => push_words(out, b"out of memory"),
    }
}

/// The line of a fault of the grammar.
#[tactic(auto, using(crate::proofs::Texts::texts_joined))]
pub fn syntax_line(alloc: Global, fault: SyntaxFault) -> Result<Items<u8>, AllocError>
    ensures { IfOk result (λ line. line ≡ refusal_line (syntax_text fault)) }
{
    let mut line = Vec::new(alloc);
    push_words(&mut line, b"model: ")?;
    push_syntax(&mut line, fault)?;
    line.push(b'\n')?;
    Ok(Items::from_vec(line))
}

/// The line of a fault of the checks.
#[tactic(auto, using(crate::proofs::Texts::texts_joined))]
pub fn fault_line(alloc: Global, fault: &ModelFault) -> Result<Items<u8>, AllocError>
    ensures { IfOk result (λ line. line ≡ refusal_line (fault_text fault.now)) }
{
    let mut line = Vec::new(alloc);
    push_words(&mut line, b"model: ")?;
    push_fault(&mut line, fault)?;
    line.push(b'\n')?;
    Ok(Items::from_vec(line))
}

/// Whether memory was wanting, which is no fault of the text.
pub fn is_want_in_syntax(fault: SyntaxFault) -> bool
    ensures { result ≡ is_want_in_syntax fault }
{
    match fault {
        SyntaxFault::Memory => true,
        SyntaxFault::TooLong
        | SyntaxFault::BadByte(_)
        | SyntaxFault::BadNumber(_)
        | SyntaxFault::BadName(_)
        | SyntaxFault::TooDeep(_)
        | SyntaxFault::Unexpected(_) => false,
    }
}

/// The same of a fault of the checks.
pub fn is_want(fault: &ModelFault) -> bool
    ensures { result ≡ is_want fault.now }
{
    match fault {
        ModelFault::Memory => true,
        ModelFault::Twice(_)
        | ModelFault::TooMany(_)
        | ModelFault::Unknown(_)
        | ModelFault::Range(_)
        | ModelFault::Circular(_, _)
        | ModelFault::Recursive(_)
        | ModelFault::NoSchedule(_, _, _) => false,
    }
}

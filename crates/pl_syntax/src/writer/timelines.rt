ghost use Rattle.std.specs.Prelude.{◌≡◌, ◌++◌, OnOk, List};
ghost use Rattle.pl_syntax.specs.Canonical.{step_tokens, steps_tokens, timeline_tokens};

use super::{Written, push_each, push_name, push_number, push_symbol, push_word};
use crate::timelines::AstTimeline;
use crate::{Symbol, Token};
use pl_lists::Items;
use pl_model::Name;
use pl_text::Word;
use std::alloc::{AllocError, Global};

impl Written for (Name, Name) {
    ghost tokens = { step_tokens };

    fn push(&self, alloc: Global, out: &mut Items<Token>) -> Result<(), AllocError> {
        push_word(Word::Step, out)?;
        push_name(&self.0, alloc, out)?;
        push_name(&self.1, alloc, out)?;
        Ok(())
    }
}

fn push_steps(
    any: bool,
    steps: &[(Name, Name)],
    alloc: Global,
    out: &mut Items<Token>,
) -> Result<(), AllocError>
    ensures { OnOk result (out.new ≡ out.old ++ steps_tokens any steps.now) }
{
    if any {
        return push_word(Word::Any, out);
    }
    push_each(steps, alloc, out)
}

impl Written for AstTimeline {
    ghost tokens = { timeline_tokens };

    fn push(&self, alloc: Global, out: &mut Items<Token>) -> Result<(), AllocError> {
        match self {
            AstTimeline::Capacity { name, most } => {
                push_word(Word::Capacity, out)?;
                push_name(name, alloc, out)?;
                push_number(*most, out)?;
                Ok(())
            }
            AstTimeline::Level {
                name,
                least,
                most,
                start,
            } => {
                push_word(Word::Level, out)?;
                push_name(name, alloc, out)?;
                push_number(*least, out)?;
                push_number(*most, out)?;
                push_number(*start, out)?;
                Ok(())
            }
            AstTimeline::States {
                name,
                states,
                start,
                any,
                steps,
            } => {
                push_word(Word::State, out)?;
                push_name(name, alloc, out)?;
                push_symbol(Symbol::OpenBrace, out)?;
                push_each(states.as_slice(), alloc, out)?;
                push_symbol(Symbol::CloseBrace, out)?;
                push_word(Word::Start, out)?;
                push_name(start, alloc, out)?;
                push_steps(*any, steps.as_slice(), alloc, out)?;
                Ok(())
            }
        }
    }
}

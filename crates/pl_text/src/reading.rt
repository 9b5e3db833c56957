ghost use Rattle.std.specs.Prelude.{◌≡◌, ◌<◌, ◌≤◌, ◌^◌, ◌+◌, ◌++◌, ◌∷◌, drop, length, OnOk, IfErr};
ghost use Rattle.pl_text.specs.declared.fault.TextFault.TheVariants.{Memory};
ghost use Rattle.pl_lists.specs.Judgements.{Shows};
ghost use Rattle.pl_text.specs.Tokens.{kept, tokens_of, is_memory, items_of, Steps};

use crate::fault::TextFault;
use crate::lexeme::{Lexeme, next_lexeme};
use crate::token::Token;
use std::alloc::Global;

fn after(bytes: &[u8], count: usize) -> &[u8]
    requires { count ≤ length bytes.now }
    ensures { result.now ≡ drop count bytes.now }
{
    &bytes[count..]
}

/// The tokens so far, and the bytes that are left, with their place.
#[derive(Drop)]
struct Scanner<'a> {
    found: Vec<Token>,
    rest: &'a [u8],
    at: u32,
}

impl<'a> Scanner<'a> {
    fn keep(&mut self, lexeme: Lexeme) -> Result<(), TextFault>
        requires { self.old.at + lexeme.len < 2 ^ 32 }
        ensures ok { OnOk result (self.new.found.items ≡ self.old.found.items ++ kept self.old.at lexeme) }
        ensures same { (self.new.rest.now ≡ self.old.rest.now) × (self.new.at ≡ self.old.at) }
        ensures memory { IfErr result (λ e. e ≡ Memory) }
    {
        match lexeme.kind {
            None => Ok(()),
            Some(kind) => {
                let from = self.at;
                let to = from + lexeme.len;
                self.found.push(Token { kind, from, to })?;
                Ok(())
            }
        }
    }

    #[tactic(auto, using(crate::proofs::Scanning::takes, crate::proofs::Scanning::fails))]
    /// Takes what the bytes `first` and `rest` begin with.
    fn take(&mut self, first: u8, rest: &'a [u8]) -> Result<(), TextFault>
        requires { self.old.at + (length rest.now + 1) < 2 ^ 32 }
        ensures { Steps result self.old.found.items self.old.at (first ∷ rest.now) self.new.found.items self.new.at self.new.rest.now }
    {
        let lexeme = next_lexeme(first, rest, self.at)?;
        self.keep(lexeme)?;
        self.at += lexeme.len;
        self.rest = after(rest, lexeme.len as usize - 1);
        Ok(())
    }

    fn step(&mut self) -> Result<(), TextFault>
        requires some { 0 < length self.old.rest.now }
        requires short { self.old.at + length self.old.rest.now < 2 ^ 32 }
        ensures { Steps result self.old.found.items self.old.at self.old.rest.now self.new.found.items self.new.at self.new.rest.now }
    {
        match self.rest {
            [first, rest @ ..] => self.take(*first, rest),
            [] => Ok(()),
        }
    }
}

// Few lines have more words.
const USUAL: usize = 12;

/// The tokens of a text, or its first fault.
pub fn tokens(alloc: Global, text: &[u8]) -> Result<Vec<Token>, TextFault>
    requires { length text.now < 2 ^ 32 }
    ensures { Shows is_memory items_of result (tokens_of text.now) }
{
    let mut scanner = Scanner {
        found: Vec::with_capacity(alloc, USUAL)?,
        rest: text,
        at: 0,
    };
    'lexemes: while !scanner.rest.is_empty() {
        scanner.step()?;
    }
    Ok(scanner.found)
}

//! Tokens of the project's texts: names, numbers and symbols, with blanks and comments between them.
#![tactic(auto)]

mod class;
mod extent;
mod fault;
mod laws;
mod lexeme;
mod number;
mod reading;
mod sharing;
mod token;
mod word;

pub use extent::token_text;
pub use fault::TextFault;
pub use laws::{faults_are_complete, tokens_are_complete, tokens_are_sound};
pub use number::push_number;
pub use reading::tokens;
pub use sharing::shared_types;
pub use token::{Token, TokenKind};
pub use word::{Word, is_name, word_of};

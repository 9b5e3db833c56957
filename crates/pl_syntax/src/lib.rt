//! The language of models: the rules of its grammar, the tree that a text stands for, and its canonical text.
#![tactic(auto)]

mod alternatives;
mod expressions;
mod fault;
mod kinds;
mod laws;
mod links;
mod marks;
mod parameters;
mod reader;
mod reading;
mod reservations;
mod sharing;
mod symbol;
mod timelines;
mod token;
mod whole;
mod writer;
mod writing;

pub use alternatives::{AstAlternative, AstOrder, AstSlot};
pub use expressions::AstExpr;
pub use fault::SyntaxFault;
pub use kinds::AstKind;
pub use laws::tokens_are_told_apart;
pub use links::AstLink;
pub use parameters::{AstOrigin, AstParam};
pub use reading::read_model;
pub use reservations::AstReservation;
pub use sharing::shared_types;
pub use symbol::Symbol;
pub use timelines::AstTimeline;
pub use token::Token;
pub use whole::{Ast, Item};
pub use writing::write_model;

use crate::alternatives::{AstAlternative, AstOrder, AstSlot};
use crate::expressions::AstExpr;
use crate::fault::SyntaxFault;
use crate::kinds::AstKind;
use crate::links::AstLink;
use crate::parameters::{AstOrigin, AstParam};
use crate::reservations::AstReservation;
use crate::symbol::Symbol;
use crate::timelines::AstTimeline;
use crate::token::Token;
use crate::whole::{Ast, Item};
use pl_lists::may_be_shared;

/// Tokens, trees and faults may be sent to other threads and be read by several at once.
pub fn shared_types() {
    may_be_shared::<Ast>();
    may_be_shared::<Item>();
    may_be_shared::<AstTimeline>();
    may_be_shared::<AstKind>();
    may_be_shared::<AstParam>();
    may_be_shared::<AstOrigin>();
    may_be_shared::<AstReservation>();
    may_be_shared::<AstLink>();
    may_be_shared::<AstAlternative>();
    may_be_shared::<AstSlot>();
    may_be_shared::<AstOrder>();
    may_be_shared::<AstExpr>();
    may_be_shared::<SyntaxFault>();
    may_be_shared::<Token>();
    may_be_shared::<Symbol>();
}

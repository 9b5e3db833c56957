use crate::fault::TextFault;
use crate::token::{Token, TokenKind};
use crate::word::Word;
use pl_lists::may_be_shared;

/// Tokens, words and faults may be sent to other threads and be read by several at once.
pub fn shared_types() {
    may_be_shared::<Token>();
    may_be_shared::<TokenKind>();
    may_be_shared::<Word>();
    may_be_shared::<TextFault>();
}

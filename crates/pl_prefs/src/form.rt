use pl_text::Token;

/// A preference as it is written: names as tokens of the line, and the weight at the end.
#[derive(Clone, Copy)]
pub(crate) enum PreferForm {
    Early(Token, u64),
    Late(Token, u64),
    /// The kind, and its parameter.
    Value(Token, Token, u64),
    Level(Token, u64),
}

use pl_text::Token;

/// A change as it is written: `down` behind a `-`.
#[derive(Clone, Copy)]
pub(crate) struct Change {
    pub down: bool,
    pub amount: u64,
}

/// A rate as it is written, the names as tokens of the line.
#[derive(Clone, Copy)]
pub(crate) struct RateForm {
    pub kind: Option<Token>,
    pub level: Token,
    pub change: Change,
}

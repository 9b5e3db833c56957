/// What is known of a move without a list of all moves that are tried for a conflict.
#[derive(Clone, Copy, PartialEq, Eq)]
pub(crate) enum Told {
    /// It is one of the first 256 moves that are tried.
    Early,
    /// It is not tried.
    Untried,
    /// It is not known whether it is tried.
    Unknown,
}

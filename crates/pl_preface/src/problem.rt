/// Why a line before a journal is refused.
#[derive(Clone, Copy, PartialEq, Eq)]
pub enum Problem {
    /// It has none of the forms that are asked for.
    BadLine,
    /// A name that the model does not have, where it stands.
    UnknownName,
    /// A number that is too small or too large.
    OutOfRange,
}

/// What an added activity is to do to a timeline, to help against a conflict.
#[derive(Clone, Copy, PartialEq, Eq)]
pub(crate) enum Help {
    Raise,
    Lower,
    /// Set the state of this number.
    SetState(u32),
    /// Set a state, whichever it is.
    SetAny,
}

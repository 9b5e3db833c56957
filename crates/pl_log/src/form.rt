use pl_conflict::Code;
use pl_entry::Reason;

/// Which repair a packed entry has. Its numbers stand apart.
#[derive(Clone, Copy)]
pub(crate) enum MoveForm {
    /// An activity that stands for no goal was added.
    Add,
    /// An activity that stands for a goal was added.
    AddFor,
    Delete,
    Shift,
    Detail,
    Abstract,
    /// The parameter of this number was set.
    Assign(u8),
    Drop,
}

/// What a packed entry is, apart from its numbers. Nearly all entries of a run have another form than `Whole`.
#[derive(Clone, Copy)]
pub(crate) enum Form {
    /// Any entry, kept as it is.
    Whole,
    /// A message that was taken.
    Message,
    /// A repair that was made, of a conflict with this code.
    Fix(Code, MoveForm),
    /// Repair rests, for this reason.
    Rest(Reason),
    /// A commit that was granted.
    Commit,
    /// A command that was sent.
    Command,
    /// The round was closed.
    Close,
}

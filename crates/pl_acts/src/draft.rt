use pl_entry::Entry;
use pl_lists::Items;
use pl_machine::Machine;

/// A replica of the plan, on which a chooser may be asked outside the turn.
#[derive(Drop)]
pub struct Draft {
    pub replica: Machine,
    /// The entries that it has not made.
    pub entries: Items<Entry>,
}

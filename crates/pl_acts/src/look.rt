use crate::draft::Draft;
use crate::role::Acted;

/// What a planner finds in one turn.
#[derive(Drop)]
pub enum Looked {
    /// The act is over.
    Settled(Acted),
    /// Its chooser is to be asked.
    Open(Draft),
}

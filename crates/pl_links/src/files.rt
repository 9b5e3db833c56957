use crate::asked::AskedPoints;
use crate::index::Index;

/// The indexes of activities: the firm ones by kind, by start and by end, where these points of
/// their kind are asked for, and children by parent and slot.
#[derive(Drop)]
pub(crate) struct Files {
    pub asked: AskedPoints,
    pub starts: Index,
    pub ends: Index,
    pub children: Index,
}

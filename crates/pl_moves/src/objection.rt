use crate::side::Side;

/// Why a move that changes an activity may be refused: the activity is committed, or it would start on this side once it is shifted
/// by as much as an activity whose start goes from `from` to `to`.
#[derive(Clone, Copy, PartialEq, Eq)]
pub(crate) enum Objection {
    Committed,
    Moved { from: u32, to: u32, side: Side },
}

use crate::timing::Timing;
use pl_lists::Items;
use pl_stn::Edge;

/// Between which times each point of a network may lie, or the edges of a negative cycle, in turn.
#[derive(Drop)]
pub enum Bounds {
    Between { early: Timing, late: Timing },
    Cycle(Items<Edge>),
}

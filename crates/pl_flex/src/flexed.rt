use crate::flex::Flex;
use pl_lists::Items;
use pl_stn::Edge;

/// How far the activities of a plan can move: their windows, the edges of a negative cycle in turn where the plan's network has
/// no schedule, or the number of its edges where it has more than a million.
#[derive(Drop)]
pub enum Flexed {
    Windows(Flex),
    NoSchedule(Items<Edge>),
    TooMany(u64),
}

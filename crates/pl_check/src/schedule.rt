use pl_lists::Items;

/// What the network of an alternative gives: the slots' starts after the parent's, or a negative cycle.
#[derive(Drop)]
pub enum Schedule {
    Offsets(Items<u32>),
    Cycle(Items<u32>),
}

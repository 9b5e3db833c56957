use pl_lists::Items;

/// A time for each point of a network, and for each point but the origin the edge that keeps it from lying further out.
#[derive(Drop)]
pub struct Timing {
    pub times: Items<i64>,
    pub causes: Items<Option<u32>>,
}

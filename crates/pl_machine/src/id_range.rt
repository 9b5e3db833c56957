/// The ids from `from` on that are below `to`.
#[derive(Clone, Copy, PartialEq, Eq)]
pub(crate) struct IdRange {
    pub(crate) from: u32,
    pub(crate) to: u32,
}

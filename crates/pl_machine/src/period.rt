/// The time from the moment `before` to the present `moment`. What starts before `committed` is committed.
#[derive(Clone, Copy, PartialEq, Eq)]
pub(crate) struct Period {
    pub(crate) before: u32,
    pub(crate) moment: u32,
    pub(crate) committed: u32,
}

// What counts at the present: from its moment up to the horizon, after the base and its state.
#[derive(Clone, Copy)]
pub(crate) struct Present {
    pub(crate) moment: u32,
    pub(crate) horizon: u32,
    pub(crate) base: u32,
    pub(crate) value: u32,
}

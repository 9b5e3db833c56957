/// How a level changes: from its moment on it has the jump more, and the slope more for each moment after it.
#[derive(Clone, Copy, PartialEq, Eq, PartialOrd, Ord)]
pub(crate) struct Hinge {
    pub line: u32,
    pub moment: u32,
    pub jump: i64,
    pub slope: i64,
}

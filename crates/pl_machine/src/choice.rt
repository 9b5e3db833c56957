/// What the executive does next.
#[derive(Clone, Copy, Debug, PartialEq, Eq)]
pub enum Choice {
    Dispatch,
    Commit(u32),
    Close,
}

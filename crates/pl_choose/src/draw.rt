/// How `Seeded` makes one choice.
#[derive(Clone, Copy, PartialEq, Eq)]
pub(crate) enum Draw {
    /// As `Least` does.
    AsLeast,
    /// By chance: one random word picks the conflict, and the other one its repair.
    AtRandom { conflict: u32, repair: u32 },
}

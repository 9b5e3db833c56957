/// What is asked of a journal: whether it is legal, what the plan is like behind it, how far its activities can move, with the
/// paths of the one of this id, where its levels leave their limits by the rates that stand before it, or how up to so many steps better
/// it by the preferences that stand before it.
#[derive(Clone, Copy, PartialEq, Eq)]
pub enum Form {
    Replay,
    Report,
    Flex { id: u64 },
    Forecast,
    Improve { steps: u32 },
}

/// What is known of the starts ahead since the plan was last gone through.
#[derive(Clone, Copy, PartialEq, Eq)]
pub(crate) struct Ahead {
    /// No activity starts after the present and before this moment.
    pub(crate) next_start: u32,
    /// An activity whose id is lower is settled, unless its id is in one of the schedule's ranges.
    pub(crate) seen: u32,
}

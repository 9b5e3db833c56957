use crate::trial::Trial;

/// What came of trying a move.
#[derive(Drop)]
pub enum Attempt {
    /// It left no more conflicts than were enough, and stays made. What it changed and how that is undone is told, unless it drops a
    /// goal: that cannot be undone.
    Made(Option<Trial>),
    /// It left so many, and was undone.
    Undone {
        /// How many it left, or the greatest number of this type if it left more.
        left: u32,
    },
}

//! What a pass knows. No value of these types is made: they stand in contracts and proofs alone.
use std::collections::LinkedList;

/// What the first pass knows of the passes that were split off from it.
pub struct Crew<I> {
    pub leads: bool,
    /// How many entries the history had as the lock was made.
    pub opening: u64,
    /// How many passes were split off.
    pub made: u64,
    /// The own entries of each pass that was joined.
    pub joined: LinkedList<LinkedList<(u64, I)>>,
}

/// What a pass knows of its own turns and of the history, and the first pass of the others too.
pub struct Known<I> {
    /// Tickets are numbered on without end. The words of the lock have them modulo 2^64.
    pub ticket: Option<u64>,
    /// The ticket was called, and the value is out with this pass.
    pub served: bool,
    /// The history, as far as the pass has seen it.
    pub seen: LinkedList<I>,
    /// What the pass that was joined last had seen, until it is compared with `seen`.
    pub heard: LinkedList<I>,
    /// A length that the history has reached.
    pub counted: u64,
    /// The entries that this pass made, each with its place in the history.
    pub mine: LinkedList<(u64, I)>,
    pub crew: Crew<I>,
    /// The pass was joined, and is no more.
    pub spent: bool,
}

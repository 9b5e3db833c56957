use pl_blocks::BlockPoints;
use pl_capacity::Capacity;
use pl_level::Level;
use pl_state::StateTimeline;

/// A timeline of any sort, with all that is asked of it.
#[derive(Drop)]
pub enum Line {
    Capacity(Capacity<BlockPoints>),
    Level(Level<BlockPoints>),
    States(StateTimeline),
}

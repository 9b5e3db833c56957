use pl_capacity::Use;
use pl_level::Effect;
use pl_state::{Must, Setting};

/// What a firm activity asks of a timeline. Timelines are numbered over all sorts from 0.
#[derive(Clone, Copy, PartialEq, Eq)]
pub struct Demand {
    pub line: u32,
    pub asked: Asked,
}

/// The reservation itself, by the sort of its timeline: states are set, or must stand.
#[derive(Clone, Copy, PartialEq, Eq)]
pub enum Asked {
    Use(Use),
    Effect(Effect),
    Set(Setting),
    Must(Must),
}

//! Tests of a planner and an executive in threads of their own, through the top call.

mod faults;
mod gates;
mod meeting;
pub mod missions;
mod runs;

//! Tests of journals read back and verified.

mod lines;
pub mod verdicts;

//! Tests of the crates that stand lowest: lists, conflicts, lines, tokens, networks, turns.

mod conflicts;
mod lines;
mod lists;
mod networks;
mod tokens;
mod turns;

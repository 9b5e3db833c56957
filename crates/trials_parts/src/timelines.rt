//! Tests of the timelines: worked cases.

mod asking;
mod blocks;
mod bounded;
mod capacities;
mod counting;
mod levels;
mod points;
mod states;

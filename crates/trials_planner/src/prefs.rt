//! Tests of preferences: their lines, scores of plans, and steps that better them.

mod lines;
mod plans;
mod steps;

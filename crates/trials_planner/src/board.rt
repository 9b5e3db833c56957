//! Tests of boards: worked rows of models, changes, and what is wrong and what is tried then.

mod alternatives;
mod attempts;
pub mod boards;
pub mod changes;
pub mod codes;
mod counted;
mod lookups;
mod mending;
mod moves;
mod outlook;
mod planned;
mod plans;
mod questions;
pub mod reading;
mod recalled;
mod recalling;
mod refusals;
mod repairs;
mod rows;
mod tried;
mod unmet;
mod until_and_halt;
mod values;

//! Tests of the plan that several callers act on.

pub mod calls;
mod full;
mod scripts;

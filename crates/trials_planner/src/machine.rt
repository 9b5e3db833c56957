//! Tests of the planning machine's calls.

mod calls;
mod until_and_halt;

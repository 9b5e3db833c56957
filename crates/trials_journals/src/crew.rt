//! Tests of the members of a crew, call by call on one thread.

mod calls;
mod members;

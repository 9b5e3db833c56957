//! Boards of a model's text.
use crate::reading::model;
use pl_board::Board;
use std::alloc::Global;
use std::process::Abort;
use std::sync::Arc;

/// A board of a model's text with nothing planned.
pub fn empty(rt: &impl Abort, alloc: Global, text: &str) -> Board {
    let shared = Arc::new(alloc, model(rt, alloc, text)).expect(rt, "memory");
    Board::new(alloc, shared, 10_000).expect(rt, "memory")
}

//! What a worker calls round each of its acts.
use std::sync::Wait;

/// A worker calls `before` ahead of each act, outside any turn, and `after` behind each act that made an entry.
pub trait Gate {
    /// `acts` is how many entries the worker has made so far.
    fn before<R: Wait>(&self, rt: &R, worker: u8, acts: u64);

    /// `entry` is the number of the entry that the act made.
    fn after<R: Wait>(&self, rt: &R, worker: u8, entry: u32);
}

/// A gate that stands open.
#[derive(Drop)]
pub struct NoGate;

impl Gate for NoGate {
    fn before<R: Wait>(&self, _rt: &R, _worker: u8, _acts: u64) {}

    fn after<R: Wait>(&self, _rt: &R, _worker: u8, _entry: u32) {}
}

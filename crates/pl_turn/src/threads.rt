//! The lock may be shared among threads, and a pass moved to one.
use crate::lock::TurnLock;
use crate::logged::Logged;
use crate::pass::Pass;

fn shares<T: Send + Sync>(_value: &T) {}

fn moves<T: Send>(_value: &T) {}

/// Does nothing: that it is proved shows that a lock and a pass are fit to cross threads where the value is.
pub fn crosses<V: Logged + Send>(lock: &TurnLock<V>, pass: &Pass<V>) {
    shares(lock);
    moves(pass);
}

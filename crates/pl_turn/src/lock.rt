//! The lock: three words, and a slot for the value.
ghost use Rattle.std.specs.Prelude.{◌≡◌};

use crate::known::Known;
use crate::logged::Logged;
use crate::steps::Turns;
use atomic_table::Table;
use std::alloc::Global;
use std::snapshot::Snapshot;

/// The length of the history.
pub(crate) const HISTORY: usize = 0;
/// The tickets drawn.
pub(crate) const TICKETS: usize = 1;
/// The tickets called.
pub(crate) const SERVING: usize = 2;
/// Where the value lies while no pass is in its turn.
pub(crate) const SLOT: usize = 0;

/// A value under a ticket lock, with the length of its history beside it.
#[derive(Drop)]
pub struct TurnLock<V: Logged> {
    pub(crate) table: Table<Option<V>, Known<V::Item>, Snapshot<V>, Turns<V>, Global>,
    ghost sized: { (table.shared.table_id.words ≡ 3) × (table.shared.table_id.slots ≡ 1) },
}

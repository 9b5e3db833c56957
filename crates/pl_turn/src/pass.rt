//! What one caller carries.
ghost use Rattle.std.specs.Prelude.{◌≡◌};

use crate::known::Known;
use crate::logged::Logged;
use atomic_table::Seat;

/// What one caller knows of the history. It belongs to the lock that it was made with, and takes no bytes.
pub struct Pass<V: Logged> {
    pub(crate) seat: Seat<Option<V>, Known<V::Item>>,
}

impl<V: Logged> Pass<V> {
    pub(crate) fn into_seat(self) -> Seat<Option<V>, Known<V::Item>>
        ensures { result ≡ self.seat }
    {
        let Self { seat } = self;
        seat
    }
}

impl<V: Logged> Drop for Pass<V> {
    fn drop(self) {
        let Self { seat } = self;
        drop(seat);
    }
}

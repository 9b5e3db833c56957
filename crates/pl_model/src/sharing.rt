use crate::alternatives::{Alternative, Order, Slot};
use crate::expressions::{Expr, Op};
use crate::kinds::Kind;
use crate::links::Link;
use crate::parameters::{Origin, Param};
use crate::reservations::{Point, Reservation};
use crate::timelines::Timeline;
use crate::whole::Model;
use pl_lists::may_be_shared;

/// A model and its parts may be sent to other threads and be read by several at once.
pub fn shared_types() {
    may_be_shared::<Model>();
    may_be_shared::<Timeline>();
    may_be_shared::<Kind>();
    may_be_shared::<Param>();
    may_be_shared::<Origin>();
    may_be_shared::<Reservation>();
    may_be_shared::<Point>();
    may_be_shared::<Link>();
    may_be_shared::<Alternative>();
    may_be_shared::<Slot>();
    may_be_shared::<Order>();
    may_be_shared::<Expr>();
    may_be_shared::<Op>();
}

ghost use Rattle.std.specs.Prelude.{◌≡◌};
ghost use Rattle.std.proofs.Common.{rules};
ghost use Rattle.std.specs.Cmp.{partial_order_from_own_ties};
ghost use Rattle.std.specs.Cmp.Rules.{comparing};
ghost use Rattle.std.specs.Ordering.{nat_cmp, on, as_partial_cmp};
ghost use Rattle.pl_conflict.specs.Codes.{code_number};

use pl_lists::Copied;
use std::alloc::{AllocError, Global};
use std::cmp::Ordering;

/// What is wrong, in the order in which conflicts at one moment are listed.
#[derive(Clone, Copy, Debug, PartialEq, Eq)]
pub enum Code {
    /// No root stands for a goal that is not dropped and may still start. From its latest start;
    /// `subject` is the goal, `a` to `b` its window.
    OpenGoal,
    /// A root starts outside the window of its goal. From the lesser of its start and the latest start;
    /// `subject` is the root, `detail` the goal, `a` to `b` the window.
    OffGoal,
    /// The start of an uncommitted activity has come. From there; `subject` is the activity.
    Late,
    /// A free parameter has no value. From the start; `subject` is the activity, `detail` the parameter.
    Unset,
    /// A value is out of its range, or an expression has none though all that it names has. From the start;
    /// `subject` is the activity, `detail` the parameter, 16 for the duration, 17 + r for the amount of reservation r.
    BadValue,
    /// No alternative is chosen, and the kind has some. From the start; `subject` is the activity.
    Undetailed,
    /// A firm activity ends past the horizon. From its start; `subject` is the activity, `a` its end.
    Overrun,
    /// No other activity stands where a link asks for one. From the start of the one that asks;
    /// `subject` is that activity, `detail` the link of its kind.
    Temporal,
    /// An order of a chosen alternative is not met. From the least start of the parent and the two;
    /// `subject` is the parent, `detail` the order.
    Linked,
    /// More of a capacity is in use than there is. From `a`; `subject` is the timeline, `a` up to `b` the span.
    Over,
    /// A level is below its least. From `a`; `subject` is the timeline, `a` up to `b` the span.
    Low,
    /// A level is above its most. From `a`; `subject` is the timeline, `a` up to `b` the span.
    High,
    /// A state is not the one that an activity needs. From the start of the activity;
    /// `subject` is the activity, `detail` the reservation of its kind, `a` up to `b` the span.
    Must,
    /// A set is a step that its timeline does not allow. From the start of the activity;
    /// `subject` is the activity, `detail` the reservation of its kind, `a` the moment of the set.
    BadStep,
}

impl Code {
    /// The place of the code in the order, from 0.
    fn number(self) -> u8
        ensures { result ≡ code_number self }
    {
        self as u8
    }
}

impl Ord for Code {
    ghost cmp = { on code_number nat_cmp };

    ghost total = { Prim.search (comparing, rules) };

    ghost matches_partial_cmp = { Prim.search (comparing, rules) };

    ghost matches_eq = { Prim.search (comparing, rules) };

    fn cmp(&self, other: &Code) -> Ordering {
        self.number().cmp(&other.number())
    }
}

impl PartialOrd for Code {
    ghost partial_cmp = { as_partial_cmp (on code_number nat_cmp) };

    ghost laws = { partial_order_from_own_ties (Prim.search (comparing, rules)) (Prim.search (comparing, rules)) };

    fn partial_cmp(&self, other: &Code) -> Option<Ordering> {
        Some(self.cmp(other))
    }
}

/// A conflict from a moment on. What `subject`, `detail`, `a` and `b` mean hangs on the code; unused ones are 0.
/// Conflicts are ordered by their fields in turn.
#[derive(Clone, Copy, Debug, PartialEq, Eq, PartialOrd, Ord)]
pub struct Conflict {
    pub from: u32,
    pub code: Code,
    pub subject: u32,
    pub detail: u32,
    pub a: u32,
    pub b: u32,
}

impl Copied for Code {
    fn copy(&self, _alloc: Global) -> Result<Code, AllocError> {
        Ok(*self)
    }
}

impl Copied for Conflict {
    fn copy(&self, _alloc: Global) -> Result<Conflict, AllocError> {
        Ok(*self)
    }
}

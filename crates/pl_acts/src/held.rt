ghost use Rattle.std.specs.Prelude.{◌≡◌, length, [], None};

use crate::replicated::Replicated;
use pl_machine::Machine;
use pl_marks::{Author, Marks};
use std::alloc::Global;

/// What lies under the lock: a machine with the marks of its entries, and who stopped the plan, if anybody did.
#[derive(Drop)]
pub struct Held {
    pub(crate) plan: Replicated,
    pub(crate) stopper: Option<Author>,
}

impl Held {
    /// A plan that was not stopped. None of its entries has an author: all were handed in.
    pub fn new(alloc: Global, machine: Machine) -> Held
        ensures { result ≡ record { plan = record { machine = machine; signs = record { opening = length machine.log; authors = [] } }; stopper = None } }
    {
        Held {
            plan: Replicated::new(alloc, machine),
            stopper: None,
        }
    }

    /// The machine and the marks by themselves.
    pub fn into_parts(self) -> (Machine, Marks)
        ensures machine { result.0 ≡ self.plan.machine }
        ensures signs { result.1 ≡ self.plan.signs }
    {
        self.plan.into_parts()
    }
}

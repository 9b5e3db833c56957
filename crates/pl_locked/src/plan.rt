//! The plan under its lock.
ghost use Rattle.std.specs.Prelude.{◌≡◌, [], false, true, length, IfOk, IfErr};
ghost use Rattle.pl_turn.specs.Passes.{seen_of, mine_of, crew_of, leads, made_by, joined_by};
ghost use Rattle.pl_marks.specs.Marks.{Signed};
ghost use Rattle.pl_acts.specs.Items.{handed_in, items_of};
ghost use Rattle.pl_locked.specs.Plans.{BelongsTo, Closes};

use pl_acts::{Bells, Held};
use pl_machine::Machine;
use pl_marks::Marks;
use pl_turn::TurnLock;
use std::alloc::Global;

/// What one caller knows of the plan's history.
pub type Pass = pl_turn::Pass<Held>;

/// A machine under a ticket lock, which can be stopped. Its history has one item for each entry of the log, and a last one where it was stopped.
#[derive(Drop)]
pub struct SharedPlan {
    pub(crate) lock: TurnLock<Held>,
    pub(crate) bells: Bells,
}

impl SharedPlan {
    /// A plan over a machine, and its first pass. For want of memory the machine comes back.
    #[tactic(auto, using(crate::proofs::Turning::belongs_in))]
    pub fn new(alloc: Global, machine: Machine) -> Result<(SharedPlan, Pass), Machine>
        ensures own { IfOk result (λ made. BelongsTo made.0 made.1) }
        ensures seen { IfOk result (λ made. seen_of made.1 ≡ items_of machine.model machine.log (handed_in machine.log)) }
        ensures mine { IfOk result (λ made. mine_of made.1 ≡ []) }
        ensures first { IfOk result (λ made. crew_of made.1 ≡ record { leads = true; opening = length (items_of machine.model machine.log (handed_in machine.log)); made = 0; joined = [] }) }
        ensures back { IfErr result (λ same. same ≡ machine) }
    {
        let held = Held::new(alloc, machine);
        held.is_sound();
        match TurnLock::new(alloc, held) {
            Ok((lock, pass)) => {
                let bells = Bells::new();
                Ok((SharedPlan { lock, bells }, pass))
            }
            Err(held) => {
                let (machine, _marks) = held.into_parts();
                Err(machine)
            }
        }
    }

    /// The machine, and who made its entries, once every pass that was split off is joined.
    #[tactic(auto, using(crate::proofs::Turning::closed))]
    pub fn close_signed(self, pass: Pass) -> (Machine, Marks)
        requires own { BelongsTo self pass }
        requires first { leads pass ≡ true }
        requires all_joined { made_by pass ≡ length (joined_by pass) }
        ensures { Closes pass result.0 result.1 }
    {
        let SharedPlan { lock, bells } = self;
        drop(bells);
        let held = lock.close(pass);
        held.is_sound();
        held.into_parts()
    }

    /// The machine, once every pass that was split off is joined.
    pub fn close(self, pass: Pass) -> Machine
        requires own { BelongsTo self pass }
        requires first { leads pass ≡ true }
        requires all_joined { made_by pass ≡ length (joined_by pass) }
        ensures { (by : Signed) × Closes pass result by }
    {
        let (machine, _marks) = self.close_signed(pass);
        machine
    }
}

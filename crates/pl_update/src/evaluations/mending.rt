//! A change of the plan state, and what it leaves kept.
ghost use Rattle.std.specs.Prelude.{◌≡◌, ◌==◌, ℕ, false, None, Some, All, OnOk, map, if◌then◌else◌};
ghost use Rattle.pl_plan.specs.Activities.{activity_of};
ghost use Rattle.pl_plan.specs.Trees.{id_of};
ghost use Rattle.pl_semantics.specs.PlanStates.{among};
ghost use Rattle.pl_semantics.specs.Whole.{IsWhole};
ghost use Rattle.pl_update.specs.Evaluations.Kept.{kept_at, come_to, KeepsUp};

use crate::changes::come_again;
use crate::evaluations::evaluations::Evaluations;
use pl_plan::Activity;
use pl_semantics::PlanState;
use std::alloc::{AllocError, Global};

impl Evaluations {
    fn forget_all(&mut self, gone: &[u32])
        ensures { (q : ℕ) → kept_at q self.new ≡ (if among q gone.now then None else kept_at q self.old) }
    {
        for id in gone {
            self.forget(*id);
        }
    }

    // Takes out what is kept under the ids that go. If these come again, it may stay: it is replaced when they come.
    fn forget_gone(&mut self, gone: &[u32], placed: &[Activity])
        ensures { (q : ℕ) → among q (map id_of placed.now) ≡ false → kept_at q self.new ≡ (if among q gone.now then None else kept_at q self.old) }
    {
        match come_again(gone, placed) {
            Some(_) => {}
            None => self.forget_all(gone),
        }
    }

    // Evaluates one live activity.
    fn evaluate(&mut self, alloc: Global, s: &PlanState, a: &Activity) -> Result<(), AllocError>
        requires whole { IsWhole s.now }
        requires live { activity_of a.now.id s.now.plan.activities ≡ Some a.now }
        ensures { OnOk result ((q : ℕ) → kept_at q self.new ≡ (if a.now.id == q then come_to s.now.model s.now.plan.activities q else kept_at q self.old)) }
    {
        let evaluated = s.plan.evaluate(alloc, s.model.get(), a.id)?;
        self.keep(a.id, evaluated)?;
        Ok(())
    }

    fn evaluate_all(
        &mut self,
        alloc: Global,
        s: &PlanState,
        placed: &[Activity],
    ) -> Result<(), AllocError>
        requires whole { IsWhole s.now }
        requires live { All (λ a. activity_of a.id s.now.plan.activities ≡ Some a) placed.now }
        ensures { OnOk result ((q : ℕ) → kept_at q self.new ≡ (if among q (map id_of placed.now) then come_to s.now.model s.now.plan.activities q else kept_at q self.old)) }
    {
        for a in placed {
            self.evaluate(alloc, s, a)?;
        }
        Ok(())
    }

    /// After activities went and others came: keeps what these come to in the state that stands now,
    /// and of those that went alone nothing. What is kept of all others stays.
    pub(crate) fn replace(
        &mut self,
        alloc: Global,
        s: &PlanState,
        gone: &[u32],
        placed: &[Activity],
    ) -> Result<(), AllocError>
        requires whole { IsWhole s.now }
        requires live { All (λ a. activity_of a.id s.now.plan.activities ≡ Some a) placed.now }
        ensures { OnOk result (KeepsUp s.now gone.now placed.now self.old self.new) }
    {
        self.forget_gone(gone, placed);
        self.evaluate_all(alloc, s, placed)?;
        Ok(())
    }
}

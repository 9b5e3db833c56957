//! What each change makes of a state timeline.
ghost use Rattle.std.specs.Prelude.{◌≤◌, false, IfOk};
ghost use Rattle.pl_state.specs.declared.change.Change.TheVariants.{Put, Take, Need, Free, Rebase, Advance};
ghost use Rattle.pl_state.specs.Keeping.{state_of, IsKept, IsMade, IsTimely};

use crate::answer::StateChange;
use crate::change::Change;
use crate::kept::Kept;
use crate::key::Keyed;
use crate::present::Present;
use crate::reservation::{Must, Setting};
use crate::sets::{end_of_base, insert_set, remove_set};
use pl_points::Span;
use std::alloc::AllocError;

impl Kept {
    /// Makes the change, and says what left and came into both lists.
    pub(crate) fn make(&mut self, change: Change) -> Result<StateChange, AllocError>
        requires kept { IsKept self.old }
        requires timely { IsTimely change (state_of false self.old) }
        ensures { IfOk result (λ told. IsMade change self.old self.new told) }
    {
        match change {
            Change::Put(set) => self.put(set),
            Change::Take(set) => self.take(set),
            Change::Need(must) => self.need(must),
            Change::Free(must) => self.free(must),
            Change::Rebase(state) => self.rebase(state),
            Change::Advance(now) => self.advance(now),
        }
    }

    fn put(&mut self, set: Setting) -> Result<StateChange, AllocError>
        requires kept { IsKept self.old }
        requires timely { 1 ≤ set.at }
        ensures { IfOk result (λ told. IsMade (Put set) self.old self.new told) }
    {
        let near = insert_set(&mut self.sets, set, self.present.horizon)?;
        let told = self.mend_near(self.present, near)?;
        Ok(told)
    }

    fn take(&mut self, set: Setting) -> Result<StateChange, AllocError>
        requires { IsKept self.old }
        ensures { IfOk result (λ told. IsMade (Take set) self.old self.new told) }
    {
        let near = remove_set(&mut self.sets, set, self.present.horizon);
        let told = self.mend_near(self.present, near)?;
        Ok(told)
    }

    fn need(&mut self, must: Must) -> Result<StateChange, AllocError>
        requires { IsKept self.old }
        ensures { IfOk result (λ told. IsMade (Need must) self.old self.new told) }
    {
        self.musts.insert(must)?;
        let told = self.mend_must(must.key())?;
        Ok(told)
    }

    fn free(&mut self, must: Must) -> Result<StateChange, AllocError>
        requires { IsKept self.old }
        ensures { IfOk result (λ told. IsMade (Free must) self.old self.new told) }
    {
        self.musts.remove(must);
        let told = self.mend_must(must.key())?;
        Ok(told)
    }

    fn rebase(&mut self, state: u32) -> Result<StateChange, AllocError>
        requires { IsKept self.old }
        ensures { IfOk result (λ told. IsMade (Rebase state) self.old self.new told) }
    {
        let moment = self.present.moment;
        let near = Span {
            from: moment,
            to: end_of_base(&self.sets, moment, self.present.horizon),
        };
        let present = Present {
            base: moment,
            value: state,
            ..self.present
        };
        let told = self.mend_near(present, near)?;
        Ok(told)
    }

    fn advance(&mut self, now: u32) -> Result<StateChange, AllocError>
        requires kept { IsKept self.old }
        requires timely { IsTimely (Advance now) (state_of false self.old) }
        ensures { IfOk result (λ told. IsMade (Advance now) self.old self.new told) }
    {
        let near = Span {
            from: self.present.moment,
            to: now,
        };
        let present = Present {
            moment: now,
            ..self.present
        };
        let told = self.mend_near(present, near)?;
        Ok(told)
    }
}

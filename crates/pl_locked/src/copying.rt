ghost use Rattle.std.specs.Prelude.{◌≡◌, ◌≤◌, length, IfOk};
ghost use Rattle.pl_turn.specs.Passes.{seen_of, mine_of};
ghost use Rattle.pl_acts.specs.Seen.{Copies};
ghost use Rattle.pl_locked.specs.Plans.{BelongsTo};
ghost use Rattle.pl_locked.specs.Turns.{TakesTurn};

use crate::plan::{Pass, SharedPlan};
use pl_acts::Part;
use std::alloc::{AllocError, Global};
use std::sync::Wait;

impl SharedPlan {
    /// The entries of the log from a number on, as they stand in one turn. Nothing is changed.
    pub fn copy_from<R: Wait>(
        &self,
        rt: &R,
        alloc: Global,
        pass: &mut Pass,
        from: u32,
    ) -> Result<Part, AllocError>
        requires own { BelongsTo self.now pass.old }
        requires from { from ≤ length (seen_of pass.old) }
        ensures own { BelongsTo self.now pass.new }
        ensures takes { TakesTurn pass.old pass.new }
        ensures mine { mine_of pass.new ≡ mine_of pass.old }
        ensures copies { IfOk result (Copies from (seen_of pass.new)) }
    {
        let held = self.enter(rt, pass);
        let part = held.part(alloc, from);
        self.leave(pass, held);
        part
    }
}

ghost use Rattle.std.specs.Prelude.{◌≡◌, ◌||◌};
ghost use Rattle.pl_turn.specs.Passes.{seen_of, mine_of};
ghost use Rattle.pl_acts.specs.Items.{stop_in, InWorld};
ghost use Rattle.pl_locked.specs.Plans.{BelongsTo};
ghost use Rattle.pl_locked.specs.Turns.{TakesTurn};

use crate::plan::{Pass, SharedPlan};
use std::sync::Wait;

impl SharedPlan {
    /// Whether the round is closed or the plan was stopped, as it stands in one turn. Nothing is changed, and no memory is taken.
    pub fn round_over<R: Wait>(&self, rt: &R, pass: &mut Pass) -> bool
        requires { BelongsTo self.now pass.old }
        ensures own { BelongsTo self.now pass.new }
        ensures takes { TakesTurn pass.old pass.new }
        ensures mine { mine_of pass.new ≡ mine_of pass.old }
        ensures over { InWorld (seen_of pass.new) (λ w. result ≡ (w.closed || stop_in (seen_of pass.new))) }
    {
        let held = self.enter(rt, pass);
        let over = held.round_over();
        self.leave(pass, held);
        over
    }
}

ghost use Rattle.std.specs.Prelude.{◌≡◌};
ghost use Rattle.pl_locked.specs.Plans.{BelongsTo};
ghost use Rattle.pl_locked.specs.Turns.{TakesTurn, Stops};

use crate::plan::{Pass, SharedPlan};
use pl_marks::Author;
use std::sync::Wait;

impl SharedPlan {
    /// Lets no event be made from here on, as this author. It takes one turn and no memory.
    pub fn stop_as<R: Wait>(&self, rt: &R, pass: &mut Pass, by: Author)
        requires { BelongsTo self.now pass.old }
        ensures own { BelongsTo self.now pass.new }
        ensures takes { TakesTurn pass.old pass.new }
        ensures stops { Stops by pass.old pass.new }
    {
        let mut held = self.enter(rt, pass);
        let before = held.busy();
        held.stop(by);
        let behind = held.busy();
        self.bells.note(behind);
        self.leave(pass, held);
        self.bells.ring(rt, before, behind);
    }

    /// Lets no event be made from here on, with the feeder as the author of the stop. It takes one turn and no memory.
    pub fn stop<R: Wait>(&self, rt: &R, pass: &mut Pass)
        requires { BelongsTo self.now pass.old }
        ensures own { BelongsTo self.now pass.new }
        ensures takes { TakesTurn pass.old pass.new }
        ensures stops { Stops Author.Feeder pass.old pass.new }
    {
        self.stop_as(rt, pass, Author::Feeder)
    }
}

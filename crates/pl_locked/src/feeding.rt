ghost use Rattle.std.specs.Prelude.{◌≡◌, IfSome};
ghost use Rattle.std.specs.Option.{option_copied};
ghost use Rattle.pl_entry.specs.Bounds.{IsMessageLine};
ghost use Rattle.pl_locked.specs.Plans.{BelongsTo};
ghost use Rattle.pl_locked.specs.Turns.{TakesTurn, Feeds};

use crate::plan::{Pass, SharedPlan};
use pl_machine::Stop;
use pl_marks::Author;
use std::sync::Wait;

impl SharedPlan {
    /// Takes a message line, or the end of the input, in one turn, and answers the number of its entry.
    pub fn feed<R: Wait>(&self, rt: &R, pass: &mut Pass, line: Option<&[u8]>) -> Result<u32, Stop>
        requires own { BelongsTo self.now pass.old }
        requires line { IfSome (option_copied line) IsMessageLine }
        ensures own { BelongsTo self.now pass.new }
        ensures takes { TakesTurn pass.old pass.new }
        ensures feeds { Feeds (option_copied line.entry) pass.old result pass.new }
    {
        let mut held = self.enter(rt, pass);
        let before = held.busy();
        let fed = held.feed(Author::Feeder, line);
        let behind = held.busy();
        self.bells.note(behind);
        self.leave(pass, held);
        self.bells.ring(rt, before, behind);
        fed
    }
}

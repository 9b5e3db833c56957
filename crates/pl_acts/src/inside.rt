//! What is done to the plan inside a turn.
ghost use Rattle.std.specs.Prelude.{◌≡◌, ◌+◌, ◌||◌, length, IfSome, Some, is_some, false, true};
ghost use Rattle.std.specs.Option.{option_copied};
ghost use Rattle.pl_marks.specs.Authors.{IsAuthor};
ghost use Rattle.pl_entry.specs.Bounds.{IsMessageLine};
ghost use Rattle.pl_acts.specs.Inside.{IsSound, FeedsIn};

use crate::held::Held;
use crate::replicated::Replicated;
use pl_machine::Stop;
use pl_marks::Author;

/// The log is legal, whatever was done: a look at it shows that.
fn is_sound(plan: &Replicated)
    ensures { IsSound plan.now }
{
    plan.is_tied();
    let _log = plan.get().log();
    let _model = plan.get().model();
}

impl Held {
    /// The log is legal: a look at it shows that.
    pub fn is_sound(&self)
        ensures { IsSound self.now.plan }
    {
        is_sound(&self.plan)
    }

    /// The number of the last entry.
    #[tactic(auto, using(pl_machine::proofs::ShortLogs::log_is_some, pl_machine::proofs::ShortLogs::log_is_short))]
    pub(crate) fn last_number(&self) -> u32
        ensures { result + 1 ≡ length self.now.plan.machine.log }
    {
        (self.plan.get().log().len() - 1) as u32
    }

    /// Takes a message line, or the end of the input, from this author.
    #[tactic(auto, using(crate::proofs::Answering::fed_one, crate::proofs::Answering::fed_none, crate::proofs::Answering::fed_stopped))]
    pub fn feed(&mut self, by: Author, line: Option<&[u8]>) -> Result<u32, Stop>
        requires author { IsAuthor by }
        requires line { IfSome (option_copied line) IsMessageLine }
        ensures { FeedsIn by (option_copied line.entry) self.old result self.new }
    {
        if self.plan.get().spoiled() {
            return Err(Stop::Spoiled);
        }
        if self.stopper.is_some() {
            return Err(Stop::NotNow);
        }
        match self.plan.input(by, line) {
            Ok(_) => Ok(self.last_number()),
            Err(stop) => Err(stop),
        }
    }

    /// Whether the round is closed or the plan was stopped.
    pub fn round_over(&self) -> bool
        ensures { result ≡ (self.now.plan.machine.world.closed || is_some self.now.stopper) }
    {
        self.plan.get().closed() || self.stopper.is_some()
    }

    /// Stops the plan as this author, unless somebody has stopped it before.
    pub fn stop(&mut self, by: Author)
        ensures plan { self.new.plan ≡ self.old.plan }
        ensures first { is_some self.old.stopper ≡ false → self.new.stopper ≡ Some by }
        ensures again { is_some self.old.stopper ≡ true → self.new.stopper ≡ self.old.stopper }
    {
        if self.stopper.is_none() {
            self.stopper = Some(by);
        }
    }
}

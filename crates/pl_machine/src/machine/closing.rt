ghost use Rattle.std.specs.Prelude.{◌≡◌, false, OnOk};
ghost use Rattle.pl_machine.specs.World.{due_in};
ghost use Rattle.pl_machine.specs.Step.{is_enabled};
ghost use Rattle.pl_machine.specs.Taking.{Answers};

use crate::machine::Machine;
use crate::round::Round;
use crate::stop::Stop;
use pl_entry::{Event, Reply};

impl Machine {
    /// Whether the round can be closed.
    fn can_close(&self) -> bool
        requires { self.now.spoiled ≡ false }
        ensures { result ≡ is_enabled self.now.world Event.Close }
    {
        !self.round.closed
            && (self.round.rested && (self.all_sent() && self.best() <= self.behind()))
    }

    /// Closes the round, once repair rests, what is due was sent and the commit is as far as it can be.
    pub fn close(&mut self) -> Result<Reply, Stop>
        ensures answers { Answers self.old Event.Close result self.new }
        ensures sent { OnOk result (self.new.world.dispatched ≡ due_in self.new.world.state) }
    {
        if self.spoiled() {
            return Err(Stop::Spoiled);
        }
        self.admit(self.can_close())?;
        let round = Round {
            closed: true,
            ..self.round
        };
        self.append(Event::Close, Reply::Done, round)
    }
}

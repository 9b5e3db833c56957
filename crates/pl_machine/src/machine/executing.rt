ghost use Rattle.pl_machine.specs.Choices.{event_of};
ghost use Rattle.pl_machine.specs.Taking.{Answers};

use crate::choice::Choice;
use crate::machine::Machine;
use crate::stop::Stop;
use pl_entry::Reply;

impl Machine {
    /// Makes the event that the executive chose.
    pub fn execute(&mut self, choice: Choice) -> Result<Reply, Stop>
        ensures { Answers self.old (event_of choice) result self.new }
    {
        match choice {
            Choice::Dispatch => self.dispatch(),
            Choice::Commit(horizon) => self.commit(horizon),
            Choice::Close => self.close(),
        }
    }
}

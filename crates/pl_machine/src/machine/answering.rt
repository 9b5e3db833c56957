ghost use Rattle.std.specs.Prelude.{◌≡◌, false};
ghost use Rattle.pl_entry.specs.Bounds.{IsEventInRange};
ghost use Rattle.pl_machine.specs.Taking.{Answers};

use crate::machine::Machine;
use crate::stop::Stop;
use pl_conflict::Conflict;
use pl_entry::{Bytes, Event, Reply};
use pl_plan::RepairMove;

impl Machine {
    fn answer_input(&mut self, line: &Option<Bytes>) -> Result<Reply, Stop>
        requires { IsEventInRange self.old.model (Event.Input line.now) }
        ensures { Answers self.old (Event.Input line.now) result self.new }
    {
        match line {
            None => self.input(None),
            Some(bytes) => self.input(Some(bytes.as_slice())),
        }
    }

    #[tactic(auto, using(crate::proofs::Moves::may_move))]
    fn answer_fix(&mut self, conflict: &Conflict, repair: &RepairMove) -> Result<Reply, Stop>
        requires { IsEventInRange self.old.model (Event.Fix conflict.now repair.now) }
        ensures { Answers self.old (Event.Fix conflict.now repair.now) result self.new }
    {
        self.fix(conflict, repair)
    }

    /// Makes an event of any sort, if it may be made. The opening of a log is no event that a machine answers.
    pub fn answer(&mut self, event: &Event) -> Result<Reply, Stop>
        requires unspoiled { self.old.spoiled ≡ false }
        requires event { IsEventInRange self.old.model event.now }
        ensures { Answers self.old event.now result self.new }
    {
        match event {
            Event::Opened(_) => Err(Stop::NotNow),
            Event::Input(line) => self.answer_input(line),
            Event::Fix(conflict, repair) => self.answer_fix(conflict, repair),
            Event::Rest => self.rest(),
            Event::Commit(moment) => self.commit(*moment),
            Event::Dispatch => self.dispatch(),
            Event::Close => self.close(),
        }
    }
}

ghost use Rattle.std.specs.Prelude.{◌≡◌, false, true, IfSome, if◌then◌else◌, nat_lt};
ghost use Rattle.pl_machine.specs.Choices.{exec_choice_of, event_of};
ghost use Rattle.pl_machine.specs.Step.{is_enabled, all_sent, behind_of, best_in};

use crate::choice::Choice;
use crate::machine::Machine;

impl Machine {
    fn choose_at_rest(&self) -> Choice
        requires unspoiled { self.now.spoiled ≡ false }
        requires open { self.now.world.closed ≡ false }
        requires rested { self.now.world.rested ≡ true }
        requires sent { all_sent self.now.world ≡ true }
        ensures choice { result ≡ (if nat_lt (behind_of self.now.world.state) (best_in self.now.world) then Choice.Commit (best_in self.now.world) else Choice.Close) }
        ensures enabled { is_enabled self.now.world (event_of result) ≡ true }
    {
        let best = self.best();
        if self.behind() < best {
            Choice::Commit(best)
        } else {
            Choice::Close
        }
    }

    /// What the executive does next, if it has anything to do.
    #[tactic(auto, unfolding(crate::specs::Choices::exec_choice_of))]
    pub fn exec_choice(&self) -> Option<Choice>
        requires { self.now.spoiled ≡ false }
        ensures choice { result ≡ exec_choice_of self.now.world }
        ensures enabled { IfSome result (λ choice. is_enabled self.now.world (event_of choice) ≡ true) }
    {
        if self.round.closed || self.done {
            return None;
        }
        if !self.all_sent() {
            return Some(Choice::Dispatch);
        }
        if self.round.rested {
            return Some(self.choose_at_rest());
        }
        if !self.round.held && self.behind() < self.target() {
            return Some(Choice::Commit(self.target()));
        }
        None
    }
}

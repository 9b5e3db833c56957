ghost use Rattle.std.specs.Prelude.{◌≡◌, false, IfOk, IfSome, IsErrOf};
ghost use Rattle.pl_cand.specs.Proposals.{IsProposal};
ghost use Rattle.pl_machine.specs.Repairs.{IsMoveOf};
ghost use Rattle.pl_machine.specs.Taking.{Proposes};

use crate::machine::Machine;
use crate::stop::Stop;
use pl_cand::{Chooser, Proposal};

impl Machine {
    /// Asks a chooser for the next repair. Nothing is logged, and the plan state stays. What is proposed may be handed to `fix`.
    pub fn propose<C: Chooser>(&mut self, chooser: &mut C) -> Result<Option<Proposal>, Stop>
        ensures answers { Proposes self.old result self.new }
        ensures picks { IfOk result (λ p. C.picks chooser.old self.old.world.state p chooser.new) }
        ensures legal { IfOk result (IsProposal self.old.world.state) }
        ensures moves { IfOk result (λ p. IfSome p (λ q. IsMoveOf self.old.model q.mv)) }
        ensures kept { IsErrOf result Stop.Spoiled → chooser.new ≡ chooser.old }
        ensures drawn { self.old.spoiled ≡ false → C.drawn chooser.old chooser.new }
    {
        if self.spoiled() {
            return Err(Stop::Spoiled);
        }
        let proposal = chooser.propose(self.alloc, &mut self.board)?;
        Ok(proposal)
    }
}

//! What a machine under a lock stands for: the items of its history.
use crate::held::Held;
use crate::noted::Noted;
use pl_turn::Logged;

impl Logged for Held {
    type Item = Noted;

    ghost use Rattle.pl_acts.specs.Inside.{items_in};

    ghost entries = { λ h. items_in h };

    #[tactic(auto, using(crate::proofs::Items::length_stopped, crate::proofs::Items::length_going, pl_machine::proofs::ShortLogs::log_is_short))]
    fn logged(&self) -> u64 {
        let entries = self.plan.get().log().len() as u64;
        if self.stopper.is_some() {
            entries + 1
        } else {
            entries
        }
    }
}

//! How the members of a crew come together again.
ghost use Rattle.std.specs.Prelude.{◌≡◌, ◌++◌, ◌∷◌, [], length, true, max};
ghost use mathlib.Core.List.{IsPrefix};
ghost use Rattle.pl_turn.specs.History.{longer};
ghost use Rattle.pl_turn.specs.Passes.{seen_of, mine_of, counted_of, crew_of, leads, made_by, joined_by};
ghost use Rattle.pl_many.specs.Members.{IsMember, SameMember};
ghost use Rattle.pl_many.specs.Closing.{ClosesCrew};

use crate::crew::Crew;
use crate::member::Member;
use pl_machine::Machine;
use pl_marks::Mark;

impl Crew {
    /// Takes in what a member made.
    pub fn join(&self, feeder: &mut Member, other: Member)
        requires own { IsMember self.now feeder.old }
        requires other { IsMember self.now other }
        requires first { leads feeder.old.pass ≡ true }
        ensures own { IsMember self.now feeder.new }
        ensures same { SameMember feeder.old feeder.new }
        ensures crew { crew_of feeder.new.pass ≡ record (crew_of feeder.old.pass) { joined = joined_by feeder.old.pass ++ mine_of other.pass ∷ [] } }
        ensures seen { seen_of feeder.new.pass ≡ longer (seen_of feeder.old.pass) (seen_of other.pass) }
        ensures begins { IsPrefix (seen_of feeder.old.pass) (seen_of feeder.new.pass) × IsPrefix (seen_of other.pass) (seen_of feeder.new.pass) }
        ensures mine { mine_of feeder.new.pass ≡ mine_of feeder.old.pass }
        ensures counted { counted_of feeder.new.pass ≡ max (counted_of feeder.old.pass) (counted_of other.pass) }
    {
        let Member {
            author: _,
            pass,
            role: _,
        } = other;
        self.plan.join(&mut feeder.pass, pass);
    }

    /// The machine, and the mark of each entry past those that it had when it was handed in, once every other member is joined.
    pub fn close(self, feeder: Member) -> (Machine, Vec<Mark>)
        requires own { IsMember self feeder }
        requires first { leads feeder.pass ≡ true }
        requires all_joined { made_by feeder.pass ≡ length (joined_by feeder.pass) }
        ensures { ClosesCrew feeder.pass result.0 result.1.items }
    {
        let Crew { plan } = self;
        let Member {
            author: _,
            pass,
            role: _,
        } = feeder;
        let (machine, marks) = plan.close_signed(pass);
        (machine, marks.into_vec())
    }
}

//! What the marks of a crew say.
ghost use Rattle.pl_many.specs.declared.crew.Crew.{Crew};
ghost use Rattle.pl_many.specs.declared.member.Member.{Member};
ghost use Rattle.pl_many.specs.Members.{IsMember};
ghost use Rattle.pl_many.specs.Closing.{IsMarked};

/// Does nothing: its contract is a law. Behind each turn of a member there is a mark for each entry past those that were handed in, in
/// order, of all that the member has seen. The marks of each author count 1, 2 and so on, and each entry that the member made is named
/// by a mark of the member's.
pub fn members_are_marked()
    ensures { (crew : Crew) (m : Member) → IsMember crew m → IsMarked m }
{}

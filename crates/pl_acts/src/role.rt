ghost use Rattle.std.specs.Prelude.{◌≡◌};
ghost use Rattle.pl_marks.specs.Authors.{IsAuthor};
ghost use Rattle.pl_acts.specs.Roles.{role_author};

use crate::bells::Listener;
use pl_choose::Seeded;
use pl_marks::Author;

/// What a worker does: it repairs the plan, or it commits, sends commands and closes rounds.
#[derive(Drop)]
pub enum Role {
    Planner(Seeded),
    Executive,
}

impl Role {
    /// The author that acts in this role where there is one planner.
    pub fn author(&self) -> Author
        ensures is { result ≡ role_author self.now }
        ensures known { IsAuthor result }
    {
        match self {
            Role::Planner(_) => Author::Planner(1),
            Role::Executive => Author::Executive,
        }
    }

    /// Which bell a worker of this role waits for.
    pub fn listener(&self) -> Listener {
        match self {
            Role::Planner(_) => Listener::Planner,
            Role::Executive => Listener::Executive,
        }
    }
}

/// What came of one act.
#[derive(Clone, Copy, PartialEq, Eq)]
pub enum Acted {
    /// The entry with this number was made.
    Did(u32),
    /// The role has no event now.
    Nothing,
    /// The input has ended.
    Finished,
    /// The plan was stopped.
    Stopped,
}

//! What a worker is hired for.
ghost use Rattle.std.specs.Prelude.{◌≡◌};
ghost use Rattle.pl_pair.specs.Duties.{role_of, author_of};

use pl_acts::Role;
use pl_choose::Seeded;
use pl_marks::Author;

/// What a worker is hired for: to repair as the planner of this number, with a chooser of this seed, where there were so many entries, or
/// to execute.
#[derive(Clone, Copy)]
pub enum Duty {
    Repair(u8, u64, u32),
    Execute,
}

impl Duty {
    /// The role to begin with.
    #[tactic(auto, unfolding(crate::specs::Duties::chooser_of))]
    pub(crate) fn role(self) -> Role
        ensures { result ≡ role_of self }
    {
        match self {
            Duty::Repair(_, seed, _) => Role::Planner(Seeded::new(seed)),
            Duty::Execute => Role::Executive,
        }
    }

    /// Who makes the entries.
    pub(crate) fn author(self) -> Author
        ensures { result ≡ author_of self }
    {
        match self {
            Duty::Repair(planner, _, _) => Author::Planner(planner),
            Duty::Execute => Author::Executive,
        }
    }
}

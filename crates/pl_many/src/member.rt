ghost use Rattle.std.specs.Prelude.{◌≡◌};

use pl_acts::Role;
use pl_locked::Pass;
use pl_marks::Author;

/// One of a crew: who it is, what it knows of the history, and how it acts, unless it is the feeder.
#[derive(Drop)]
pub struct Member {
    pub(crate) author: Author,
    pub(crate) pass: Pass,
    pub(crate) role: Option<Role>,
}

impl Member {
    /// Who it is.
    pub fn author(&self) -> Author
        ensures { result ≡ self.now.author }
    {
        self.author
    }
}

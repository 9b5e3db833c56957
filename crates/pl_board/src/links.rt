//! What is placed with its ends, and whether links have partners there.
ghost use Rattle.std.specs.Prelude.{◌≡◌, false};
ghost use Rattle.std.specs.List.{list_any};
ghost use Rattle.std.specs.Option.{option_map};
ghost use Rattle.pl_links.specs.Broken.{is_partner};
ghost use Rattle.pl_semantics.specs.Links.{placed_of, placed_in};
ghost use Rattle.pl_semantics.specs.PlanStates.{found};

use crate::board::Board;
use pl_links::Placed;
use pl_model::Link;

impl Board {
    /// The live activity of this id with its end. It is kept, so nothing is worked out.
    pub fn placed(&self, id: u32) -> Option<Placed>
        requires { self.now.spoiled ≡ false }
        ensures { result ≡ option_map (placed_of self.now.state) (found self.now.state id) }
    {
        self.watched().links.item(id)
    }

    /// Whether an activity, which need not be live, has a partner for its link among the live ones. They are not walked through.
    pub fn has_partner(&self, own: &Placed, link: &Link) -> bool
        requires { self.now.spoiled ≡ false }
        ensures { result ≡ list_any (is_partner link.now own.now) (placed_in self.now.state) }
    {
        self.watched().links.has_partner(own, link)
    }
}

//! The set that decides the state at a moment.
ghost use Rattle.std.specs.Prelude.{◌≡◌};
ghost use Rattle.pl_state.specs.Sets.{last_by};

use crate::reservation::Setting;
use crate::timeline::StateTimeline;

impl StateTimeline {
    /// The last set at a moment or before it, if there is one. If it lies after the base, it decides the state there.
    pub fn last_set(&self, t: u32) -> Option<Setting>
        ensures { result ≡ last_by t self.now.sets }
    {
        self.kept.sets.last_by(t)
    }
}

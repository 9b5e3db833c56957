ghost use Rattle.std.specs.Prelude.{◌≡◌, IfOk, IfSome};
ghost use Rattle.std.specs.Option.{option_copied};
ghost use Rattle.pl_flex.specs.State.{IsWindowOf};
ghost use Rattle.pl_flex.specs.Windows.{IsLowPath, IsHighPath, window_with};

use crate::window::Window;
use pl_lists::Items;
use pl_stn::{Edge, Net};
use pl_times::{Timing, path_from_origin, path_to_origin};
use std::alloc::{AllocError, Global};
use std::marker::Model;

/// The windows of a plan, with the network that gives them and its earliest and latest times.
#[derive(Drop)]
pub struct Flex {
    pub(crate) net: Net,
    pub(crate) windows: Items<Window>,
    pub(crate) early: Timing,
    pub(crate) late: Timing,
}

impl Model for Flex {
    ghost use Rattle.pl_flex.specs.State.{FlexValue, AreTimed};

    ghost Value = { FlexValue };

    ghost view = { λ f. record { net = f.net; windows = f.windows; early = f.early.times; late = f.late.times } };

    ghost invariant = { λ f. AreTimed f.net f.windows f.early f.late };
}

impl Flex {
    /// The window of each activity that can move, by rising id.
    pub fn windows(&self) -> &[Window]
        ensures { result.now ≡ self.now.windows }
    {
        self.windows.as_slice()
    }

    /// The earliest time of each point of the network.
    pub fn early(&self) -> &[i64]
        ensures { result.now ≡ self.now.early }
    {
        self.early.times.as_slice()
    }

    /// The latest time of each point of the network.
    pub fn late(&self) -> &[i64]
        ensures { result.now ≡ self.now.late }
    {
        self.late.times.as_slice()
    }

    // The window of the activity of this id.
    fn window(&self, id: u64) -> Option<&Window>
        ensures value { option_copied result ≡ window_with id self.now.windows }
        ensures timed { IfSome result (λ w. IsWindowOf self.now.net self.now.early self.now.late w.now) }
    {
        self.windows
            .as_slice()
            .iter()
            .find(|w| u64::from(w.id) == id)
    }

    /// The edges that keep the activity of this id from starting earlier, from its start to the origin.
    pub fn low_path(&self, alloc: Global, id: u64) -> Result<Option<Items<Edge>>, AllocError>
        ensures { IfOk result (IsLowPath self.now.net (window_with id self.now.windows)) }
    {
        match self.window(id) {
            Some(window) => {
                let path = path_to_origin(alloc, &self.net, &self.early, window.point)?;
                Ok(Some(Items::from_vec(path)))
            }
            None => Ok(None),
        }
    }

    /// The edges that keep the activity of this id from starting later, from the origin to its start.
    pub fn high_path(&self, alloc: Global, id: u64) -> Result<Option<Items<Edge>>, AllocError>
        ensures { IfOk result (IsHighPath self.now.net (window_with id self.now.windows)) }
    {
        match self.window(id) {
            Some(window) => {
                let path = path_from_origin(alloc, &self.net, &self.late, window.point)?;
                Ok(Some(Items::from_vec(path)))
            }
            None => Ok(None),
        }
    }
}

//! How often a property of moments comes to hold.
ghost use Rattle.std.specs.Prelude.{◌≡◌, ◌≤◌, ◌-◌, ℕ, Bool, length};
ghost use Rattle.pl_points.specs.Spans.{spans_of};
ghost use Rattle.pl_bounds.specs.Risings.{rise};
ghost use Rattle.pl_bounds.specs.Tallies.{fresh, IsTallyOf};

/// How often a property came to hold, by rising moments, and whether it held at the last of them (`before`). The next moment to be noted lies
/// from `next` on and before `end`.
#[derive(Clone, Copy)]
pub(crate) struct Tally {
    pub(crate) times: u32,
    pub(crate) before: bool,
    pub(crate) next: u32,
    pub(crate) end: u32,
}

fn rise(before: bool, holds: bool) -> u32
    ensures { result ≡ rise before holds }
{
    if before {
        0
    } else if holds {
        1
    } else {
        0
    }
}

impl Tally {
    /// The tally of no moment so far.
    pub(crate) fn new(from: u32, end: u32) -> Tally
        ensures value { result ≡ fresh from end }
        ensures tally { (P : ℕ → Bool) → from ≤ end → IsTallyOf P from end result }
    {
        Tally {
            times: 0,
            before: false,
            next: from,
            end,
        }
    }

    /// Notes whether the property holds at a moment, if this moment lies from `next` on and before `end`.
    pub(crate) fn noted(self, at: u32, holds: bool) -> Tally
        ensures { (P : ℕ → Bool) (from end : ℕ) → P at ≡ holds → IsTallyOf P from end self → IsTallyOf P from end result }
    {
        if at < self.next || self.end <= at {
            return self;
        }
        Tally {
            times: self.times.saturating_add(rise(self.before, holds)),
            before: holds,
            next: at + 1,
            end: self.end,
        }
    }
}

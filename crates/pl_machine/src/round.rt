ghost use Rattle.std.specs.Prelude.{◌≡◌, ◌<◌, ◌+◌, true, false};

/// Where a round stands.
#[derive(Clone, Copy, PartialEq, Eq)]
pub(crate) struct Round {
    /// The repairs so far.
    pub(crate) turn: u32,
    /// Repair is over.
    pub(crate) rested: bool,
    /// A commit was held, and no repair was made since.
    pub(crate) held: bool,
    pub(crate) closed: bool,
    /// What was committed and had not begun was withdrawn, and the present has not moved on since. This outlasts the
    /// round.
    pub(crate) halted: bool,
}

impl Round {
    /// Between rounds, before the first one.
    pub(crate) fn closed() -> Round
        ensures { result ≡ record { turn = 0; rested = false; held = false; closed = true; halted = false } }
    {
        Round {
            turn: 0,
            rested: false,
            held: false,
            closed: true,
            halted: false,
        }
    }

    /// A round that has just begun.
    pub(crate) fn begun(halted: bool) -> Round
        ensures { result ≡ record { turn = 0; rested = false; held = false; closed = false; halted = halted } }
    {
        Round {
            turn: 0,
            rested: false,
            held: false,
            closed: false,
            halted,
        }
    }

    /// The same round after one more repair.
    pub(crate) fn repaired(self) -> Round
        requires { self.turn < 4294967295 }
        ensures { result ≡ record self { turn = self.turn + 1; held = false } }
    {
        Round {
            turn: self.turn + 1,
            held: false,
            ..self
        }
    }
}

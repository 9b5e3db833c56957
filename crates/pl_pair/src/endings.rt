//! How the run ends.
ghost use Rattle.std.specs.Prelude.{◌≡◌, ◌||◌, []};
ghost use Rattle.pl_pair.specs.Endings.{is_full, is_other, met_by, refusal_of, ended_of};

use crate::cut::Cut;
use pl_input::Halt;
use pl_machine::Stop;

/// Whether a worker's refusal was a full log.
fn is_full(met: &Option<Stop>) -> bool
    ensures { result ≡ is_full met.now }
{
    match met {
        Some(Stop::LogFull) => true,
        Some(Stop::Spoiled | Stop::NotNow | Stop::Memory) | None => false,
    }
}

/// Whether it was another.
fn is_other(met: &Option<Stop>) -> bool
    ensures { result ≡ is_other met.now }
{
    match met {
        Some(Stop::Spoiled | Stop::NotNow | Stop::Memory) => true,
        Some(Stop::LogFull) | None => false,
    }
}

/// What workers met, all together: whether one of them met a full log, and whether one met another refusal.
#[derive(Clone, Copy, Debug, PartialEq, Eq)]
pub struct Met {
    pub full: bool,
    pub other: bool,
}

impl Met {
    /// Nobody met a refusal.
    pub(crate) fn nothing() -> Met
        ensures { result ≡ met_by [] }
    {
        Met {
            full: false,
            other: false,
        }
    }

    /// The same with one worker more.
    pub(crate) fn with(self, met: &Option<Stop>) -> Met
        ensures { result ≡ record { full = self.full || is_full met.now; other = self.other || is_other met.now } }
    {
        Met {
            full: self.full || is_full(met),
            other: self.other || is_other(met),
        }
    }
}

/// What stopped the plan: a full log only where nobody met another refusal.
fn refusal_of(full: bool, met: Met) -> Halt
    ensures { result ≡ refusal_of full met }
{
    if met.other {
        Halt::Memory
    } else if full || met.full {
        Halt::Full
    } else {
        Halt::Memory
    }
}

/// A fault or a limit that the feeder met comes first, then what stopped the plan.
pub(crate) fn ended(fed: &Result<(), Cut>, met: Met) -> Result<(), Halt>
    ensures { result ≡ ended_of fed.now met }
{
    match fed {
        Ok(()) => Ok(()),
        Err(Cut::Read) => Err(Halt::Read),
        Err(Cut::Write) => Err(Halt::Write),
        Err(Cut::Limit) => Err(Halt::Limit),
        Err(Cut::Memory) => Err(Halt::Memory),
        Err(Cut::Full) => Err(refusal_of(true, met)),
        Err(Cut::Stopped) => Err(refusal_of(false, met)),
    }
}

ghost use Rattle.pl_input.specs.Stops.{HaltFor};

use crate::halt::Halt;
use pl_io::LineFault;

/// How a run stops by a fault of its reader.
pub fn halt_of(fault: LineFault) -> Halt
    ensures { HaltFor fault result }
{
    match fault {
        LineFault::Read => Halt::Read,
        LineFault::Long(_) | LineFault::Total => Halt::Limit,
        LineFault::Memory => Halt::Memory,
    }
}

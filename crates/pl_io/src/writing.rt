//! Writing all of some bytes.
ghost use Rattle.std.specs.Prelude.{◌≡◌, ◌++◌, Some, None, IfSome, OnOk, OnErr};
ghost use Rattle.pl_io.specs.Faults.{HasCause};
ghost use Rattle.pl_io.specs.Writes.{AppendsFront};

use crate::errors::Failed;
use crate::traits::Sink;

/// Writes all of the bytes, by as many calls as it takes.
pub fn put<O: Sink>(out: &mut O, bytes: &[u8]) -> Result<(), Failed>
    ensures whole { OnOk result (IfSome (O.held out.old) (λ before.
        O.held out.new ≡ Some (before ++ bytes.now))) }
    ensures front { OnErr result (AppendsFront (O.held out.old) (O.held out.new) bytes.now) }
    ensures untold { O.held out.old ≡ None → O.held out.new ≡ None }
    ensures cause { HasCause (O.faults out.old) (O.faults out.new) result }
{
    let mut written = 0;
    while written < bytes.len() {
        written += out.write(&bytes[written..])?;
    }
    Ok(())
}

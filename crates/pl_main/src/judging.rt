ghost use Rattle.std.specs.Prelude.{◌≡◌, ◌≤◌, OnOk, OnErr, IfOk, IfErr};
ghost use Rattle.pl_io.specs.Writes.{AppendsFront};
ghost use Rattle.pl_check.specs.Accepting.{HoldsChecked};
ghost use Rattle.pl_main.specs.Runs.{AcceptsKept};
ghost use Rattle.pl_journal.specs.Written.{Adds, WriteStops};

use crate::outcome::Outcome;
use pl_check::{Accepted, accept, too_long};
use pl_input::Halt;
use pl_io::{Sink, put};
use std::alloc::{AllocError, Global};

/// What is said of an input without a `begin` line.
pub const NO_BEGIN: &[u8] = b"model: no begin\n";

/// Writes the line that refuses a model.
pub fn refuse<O: Sink>(out: &mut O, line: &[u8]) -> Result<Outcome, Halt>
    ensures text { OnOk result (Adds (O.held out.old) (O.held out.new) line.now) }
    ensures refused { IfOk result (λ outcome. outcome ≡ Outcome.Refused) }
    ensures front { OnErr result (AppendsFront (O.held out.old) (O.held out.new) line.now) }
    ensures fails { IfErr result (λ e. e ≡ Halt.Write) }
    ensures cause { IfErr result (WriteStops (O.faults out.old) (O.faults out.new)) }
    ensures later { O.faults out.old ≤ O.faults out.new }
{
    put(out, line)?;
    Ok(Outcome::Refused)
}

/// What the text that was kept is.
pub fn model_of(alloc: Global, kept: &Option<Vec<u8>>) -> Result<Accepted, AllocError>
    ensures accepts { IfOk result (AcceptsKept kept.now) }
    ensures checked { IfOk result HoldsChecked }
{
    match kept {
        None => too_long(alloc),
        Some(text) => accept(alloc, text.as_slice()),
    }
}

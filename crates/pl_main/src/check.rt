ghost use Rattle.std.specs.Prelude.{◌≡◌, ◌≤◌, ◌++◌, OnOk, IfOk, IfErr, IsErrOf, decimal};
ghost use Rattle.pl_io.specs.Faults.{Rose};
ghost use Rattle.pl_io.specs.Writes.{AppendsFront};
ghost use Rattle.pl_main.specs.Runs.{TextChecks};
ghost use Rattle.pl_main.specs.Top.{model_ok_line, ChecksKnown};
ghost use Rattle.pl_journal.specs.Written.{Adds, WriteStops};

use crate::judging::{NO_BEGIN, model_of, refuse};
use crate::outcome::Outcome;
use crate::whole::{LINE_LIMIT, TOTAL_LIMIT};
use pl_check::Accepted;
use pl_input::{Halt, Head, halt_of, read_head};
use pl_io::{LineReader, Sink, Source, put};
use pl_model::Model;
use std::alloc::{AllocError, Global};

/// Puts the words and then the count in decimal at the end.
pub fn push_counted(out: &mut Vec<u8>, words: &[u8], count: usize) -> Result<(), AllocError>
    ensures { OnOk result (out.new.items ≡ out.old.items ++ (words.now ++ decimal count)) }
{
    out.extend_from_slice(words)?;
    let alloc = *out.allocator();
    let digits = count.to_string(alloc)?;
    out.extend_from_slice(digits.as_bytes())?;
    Ok(())
}

/// The line that says that a model is one.
#[tactic(auto, using(crate::proofs::Checking::texts_joined))]
fn model_ok_line(alloc: Global, model: &Model) -> Result<Vec<u8>, AllocError>
    ensures { IfOk result (λ line. line.items ≡ model_ok_line model.now) }
{
    let mut line = Vec::new(alloc);
    push_counted(&mut line, b"model ok: timelines ", model.timelines.len())?;
    push_counted(&mut line, b" kinds ", model.kinds.len())?;
    line.push(b'\n')?;
    Ok(line)
}

fn write_ok<O: Sink>(alloc: Global, model: &Model, out: &mut O) -> Result<Outcome, Halt>
    ensures text { OnOk result (Adds (O.held out.old) (O.held out.new) (model_ok_line model.now)) }
    ensures done { IfOk result (λ outcome. outcome ≡ Outcome.Done) }
    ensures front { IsErrOf result Halt.Write → AppendsFront (O.held out.old) (O.held out.new) (model_ok_line model.now) }
    ensures silent { IsErrOf result Halt.Memory → O.held out.new ≡ O.held out.old }
    ensures cause { IfErr result (WriteStops (O.faults out.old) (O.faults out.new)) }
    ensures later { O.faults out.old ≤ O.faults out.new }
{
    let line = model_ok_line(alloc, model)?;
    put(out, line.as_slice())?;
    Ok(Outcome::Done)
}

#[tactic(auto, using(crate::proofs::Checking::text_none, crate::proofs::Checking::text_fails, crate::proofs::Checking::text_passes))]
fn check_text<O: Sink>(alloc: Global, kept: Option<Vec<u8>>, out: &mut O) -> Result<Outcome, Halt>
    ensures text { TextChecks kept (O.held out.old) result (O.held out.new) }
    ensures cause { IfErr result (WriteStops (O.faults out.old) (O.faults out.new)) }
    ensures later { O.faults out.old ≤ O.faults out.new }
{
    match model_of(alloc, &kept)? {
        Accepted::Refused(line) => refuse(out, line.as_slice()),
        Accepted::Model(model) => write_ok(alloc, &model, out),
    }
}

/// Reads a model up to its `begin` line and writes that it is one, or its first fault.
#[tactic(auto, using(crate::proofs::Checking::no_reader, crate::proofs::Checking::head_checks, crate::proofs::Jobs::fault_fills_none, crate::proofs::Jobs::line_fills_none))]
pub fn check<S: Source, O: Sink>(alloc: Global, src: &mut S, out: &mut O) -> Result<Outcome, Halt>
    ensures checks { ChecksKnown (S.left src.old) (S.left src.new) (O.held out.old) (O.held out.new)
        result }
    ensures read { IsErrOf result Halt.Read → Rose (S.faults src.old) (S.faults src.new) }
    ensures write { IsErrOf result Halt.Write → Rose (O.faults out.old) (O.faults out.new) }
    ensures never_full { IsErrOf result Halt.Full → ⊥ }
{
    let mut lines = LineReader::new(alloc, LINE_LIMIT, TOTAL_LIMIT)?;
    match read_head(alloc, &mut lines, src) {
        Err(fault) => Err(halt_of(fault)),
        Ok(Head::NoBegin) => refuse(out, NO_BEGIN),
        Ok(Head::Text(kept)) => check_text(alloc, kept, out),
    }
}

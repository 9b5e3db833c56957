ghost use Rattle.std.specs.Prelude.{◌≡◌, None, IsErrOf};
ghost use Rattle.pl_io.specs.Faults.{Rose};
ghost use Rattle.pl_model.specs.Checked.{IsChecked};
ghost use Rattle.pl_input.specs.Places.{place_of};
ghost use Rattle.pl_main.specs.Forewords.{FitsTold};
ghost use Rattle.pl_main.specs.Replays.{ReadsBackKnown};
ghost use Rattle.pl_main.specs.Readings.{ModelReads, BehindReads, TextReads};

use crate::foreword::Foreword;
use crate::forewords::read_foreword;
use crate::form::Form;
use crate::journal_text::{write_judged, write_text};
use crate::judgement::Judgement;
use crate::judging::{NO_BEGIN, model_of};
use crate::told::Told;
use crate::whole::TOTAL_LIMIT;
use pl_check::Accepted;
use pl_input::{Halt, Head, halt_of, read_head};
use pl_io::{LineReader, Sink, Source};
use pl_model::Model;
use pl_replay::verify;
use std::alloc::Global;
use std::sync::Arc;

/// A journal's longest line, which has the bytes of a message and some words.
const JOURNAL_LINE_LIMIT: u32 = 4160;

/// Reads a journal over a model, and writes what is to be said of it.
#[tactic(auto, using(crate::proofs::Replaying::judged_ends, crate::proofs::Replaying::machine_unspoiled, crate::proofs::Replaying::machine_verdict, crate::proofs::Replaying::machine_fits, crate::proofs::Replaying::journal_stops))]
fn read_journal<S: Source, O: Sink>(
    alloc: Global,
    what: &Told,
    model: Model,
    lines: &mut LineReader,
    src: &mut S,
    out: &mut O,
) -> Result<Judgement, Halt>
    requires checked { IsChecked model }
    requires fits { FitsTold model what.now }
    requires working { lines.old.failed ≡ None }
    ensures reads { ModelReads what.now model (place_of lines.old (S.left src.old)) (O.held out.old) result
        (place_of lines.new (S.left src.new)) (O.held out.new) }
    ensures read { IsErrOf result Halt.Read → Rose (S.faults src.old) (S.faults src.new) }
    ensures write { IsErrOf result Halt.Write → Rose (O.faults out.old) (O.faults out.new) }
{
    let model = Arc::new(alloc, model)?;
    let kept = model.clone()?;
    match verify(alloc, model, lines, src) {
        Err(fault) => Err(halt_of(fault)),
        Ok((verdict, machine)) => write_judged(alloc, what, kept.as_ref(), verdict, machine, out),
    }
}

/// Reads what is asked for before a journal, and then the journal.
#[tactic(auto, using(crate::proofs::Replaying::foreword_stops, crate::proofs::Replaying::foreword_refuses, crate::proofs::Replaying::foreword_tells, crate::proofs::Prefacing::tells_working))]
fn read_behind<S: Source, O: Sink>(
    alloc: Global,
    form: Form,
    model: Model,
    lines: &mut LineReader,
    src: &mut S,
    out: &mut O,
) -> Result<Judgement, Halt>
    requires checked { IsChecked model }
    requires limit { lines.old.limit ≡ 4160 }
    requires working { lines.old.failed ≡ None }
    ensures reads { BehindReads form model (place_of lines.old (S.left src.old)) (O.held out.old) result
        (place_of lines.new (S.left src.new)) (O.held out.new) }
    ensures read { IsErrOf result Halt.Read → Rose (S.faults src.old) (S.faults src.new) }
    ensures write { IsErrOf result Halt.Write → Rose (O.faults out.old) (O.faults out.new) }
{
    match read_foreword(alloc, form, &model, lines, src) {
        Err(halt) => Err(halt),
        Ok(Foreword::Refuses(line)) => write_text(out, line.as_slice(), Judgement::Refused),
        Ok(Foreword::Tells(what)) => read_journal(alloc, &what, model, lines, src, out),
    }
}

#[tactic(auto, using(crate::proofs::Replaying::text_not_read, crate::proofs::Replaying::text_read))]
fn read_text<S: Source, O: Sink>(
    alloc: Global,
    form: Form,
    kept: Option<Vec<u8>>,
    lines: &mut LineReader,
    src: &mut S,
    out: &mut O,
) -> Result<Judgement, Halt>
    requires limit { lines.old.limit ≡ 4160 }
    requires working { lines.old.failed ≡ None }
    ensures reads { TextReads form kept (place_of lines.old (S.left src.old)) (O.held out.old) result
        (place_of lines.new (S.left src.new)) (O.held out.new) }
    ensures read { IsErrOf result Halt.Read → Rose (S.faults src.old) (S.faults src.new) }
    ensures write { IsErrOf result Halt.Write → Rose (O.faults out.old) (O.faults out.new) }
{
    match model_of(alloc, &kept)? {
        Accepted::Refused(line) => write_text(out, line.as_slice(), Judgement::Refused),
        Accepted::Model(model) => read_behind(alloc, form, model, lines, src, out),
    }
}

/// Reads a model and a journal, and writes the first wrong entry of the journal, or what the form asks of a legal one.
#[tactic(auto, using(crate::proofs::ReadingBack::begun_reads, crate::proofs::ReadingBack::begun_limit, crate::proofs::ReadingBack::refused_reads, crate::proofs::ReadingBack::head_reads, crate::proofs::Jobs::fault_fills_none, crate::proofs::Jobs::text_fills_none, crate::proofs::Jobs::journal_fills_none))]
pub fn read_back<S: Source, O: Sink>(
    alloc: Global,
    form: Form,
    src: &mut S,
    out: &mut O,
) -> Result<Judgement, Halt>
    ensures reads { ReadsBackKnown form (S.left src.old) (S.left src.new) (O.held out.old) (O.held out.new)
        result }
    ensures read { IsErrOf result Halt.Read → Rose (S.faults src.old) (S.faults src.new) }
    ensures write { IsErrOf result Halt.Write → Rose (O.faults out.old) (O.faults out.new) }
    ensures never_full { IsErrOf result Halt.Full → ⊥ }
{
    let mut lines = LineReader::new(alloc, JOURNAL_LINE_LIMIT, TOTAL_LIMIT)?;
    match read_head(alloc, &mut lines, src) {
        Err(fault) => Err(halt_of(fault)),
        Ok(Head::NoBegin) => write_text(out, NO_BEGIN, Judgement::Refused),
        Ok(Head::Text(kept)) => read_text(alloc, form, kept, &mut lines, src, out),
    }
}

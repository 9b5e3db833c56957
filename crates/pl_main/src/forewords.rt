ghost use Rattle.std.specs.Prelude.{◌≡◌, ◌≤◌, None, IfOk, IsErrOf};
ghost use Rattle.pl_io.specs.Faults.{Rose};
ghost use Rattle.pl_model.specs.Checked.{IsChecked};
ghost use Rattle.pl_input.specs.Places.{place_of};
ghost use Rattle.pl_main.specs.Forewords.{ForewordReads, FitsForeword};

use crate::foreword::Foreword;
use crate::form::Form;
use crate::told::Told;
use pl_input::{Halt, halt_of};
use pl_io::{LineReader, Source};
use pl_model::Model;
use pl_preface::{Preface, read_preface, refusal_line};
use std::alloc::Global;

#[tactic(auto, using(crate::proofs::Prefacing::rates_read, crate::proofs::Prefacing::rates_refused, crate::proofs::Prefacing::rates_stop, crate::proofs::Prefacing::rates_unread))]
fn read_rates<S: Source>(
    alloc: Global,
    model: &Model,
    lines: &mut LineReader,
    src: &mut S,
) -> Result<Foreword, Halt>
    requires checked { IsChecked model.now }
    requires limit { lines.old.limit ≡ 4160 }
    requires working { lines.old.failed ≡ None }
    ensures reads { ForewordReads Form.Forecast model.now (place_of lines.old (S.left src.old)) result (place_of lines.new (S.left src.new)) }
    ensures fits { IfOk result (FitsForeword model.now) }
    ensures read { IsErrOf result Halt.Read → Rose (S.faults src.old) (S.faults src.new) }
    ensures later { S.faults src.old ≤ S.faults src.new }
{
    match read_preface(alloc, model, lines, src) {
        Err(fault) => Err(halt_of(fault)),
        Ok(Preface::Given(rates)) => Ok(Foreword::Tells(Told::Forecast(rates))),
        Ok(Preface::Refused(why)) => {
            let line = refusal_line(alloc, b"rate", why)?;
            Ok(Foreword::Refuses(line))
        }
    }
}

#[tactic(auto, using(crate::proofs::Prefacing::prefers_read, crate::proofs::Prefacing::prefers_refused, crate::proofs::Prefacing::prefers_stop, crate::proofs::Prefacing::prefers_unread))]
fn read_prefers<S: Source>(
    alloc: Global,
    steps: u32,
    model: &Model,
    lines: &mut LineReader,
    src: &mut S,
) -> Result<Foreword, Halt>
    requires checked { IsChecked model.now }
    requires limit { lines.old.limit ≡ 4160 }
    requires working { lines.old.failed ≡ None }
    ensures reads { ForewordReads (Form.Improve steps) model.now (place_of lines.old (S.left src.old)) result (place_of lines.new (S.left src.new)) }
    ensures fits { IfOk result (FitsForeword model.now) }
    ensures read { IsErrOf result Halt.Read → Rose (S.faults src.old) (S.faults src.new) }
    ensures later { S.faults src.old ≤ S.faults src.new }
{
    match read_preface(alloc, model, lines, src) {
        Err(fault) => Err(halt_of(fault)),
        Ok(Preface::Given(prefers)) => Ok(Foreword::Tells(Told::Improve { steps, prefers })),
        Ok(Preface::Refused(why)) => {
            let line = refusal_line(alloc, b"prefer", why)?;
            Ok(Foreword::Refuses(line))
        }
    }
}

/// Reads what is asked for between the line `begin` and a journal.
#[tactic(auto, using(crate::proofs::Prefacing::nothing_for_replay, crate::proofs::Prefacing::nothing_for_report, crate::proofs::Prefacing::nothing_for_flex))]
pub fn read_foreword<S: Source>(
    alloc: Global,
    form: Form,
    model: &Model,
    lines: &mut LineReader,
    src: &mut S,
) -> Result<Foreword, Halt>
    requires checked { IsChecked model.now }
    requires limit { lines.old.limit ≡ 4160 }
    requires working { lines.old.failed ≡ None }
    ensures reads { ForewordReads form model.now (place_of lines.old (S.left src.old)) result (place_of lines.new (S.left src.new)) }
    ensures fits { IfOk result (FitsForeword model.now) }
    ensures read { IsErrOf result Halt.Read → Rose (S.faults src.old) (S.faults src.new) }
    ensures later { S.faults src.old ≤ S.faults src.new }
{
    match form {
        Form::Replay => Ok(Foreword::Tells(Told::Verdict)),
        Form::Report => Ok(Foreword::Tells(Told::Report)),
        Form::Flex { id } => Ok(Foreword::Tells(Told::Flex { id })),
        Form::Forecast => read_rates(alloc, model, lines, src),
        Form::Improve { steps } => read_prefers(alloc, steps, model, lines, src),
    }
}

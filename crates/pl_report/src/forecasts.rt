//! A forecast, in lines.
ghost use Rattle.std.specs.Prelude.{◌≡◌, [], ◌∷◌, ◌++◌, OnOk, IfOk, false, All, decimal};
ghost use Rattle.pl_journal.specs.Rendering.Words.{spaced};
ghost use Rattle.pl_msg.specs.Names.{timeline_name};
ghost use Rattle.pl_semantics.specs.Whole.{IsWhole};
ghost use Rattle.pl_rate.specs.Rates.{IsRateOf};
ghost use Rattle.pl_rate.specs.Fores.{forecast_of};
ghost use Rattle.pl_report.specs.Forecasts.{spans_line, line_name, side_word, outside_line, outside_lines, spans_text, forecast_text};

use crate::heading::push_length;
use pl_journal::{push_count, push_word};
use pl_machine::Machine;
use pl_model::{Model, Timeline};
use pl_rate::{Outside, Rate, forecast, laws_of_bases};
use pl_semantics::PlanState;
use std::alloc::{AllocError, Global};

fn timeline_name(timeline: &Timeline) -> &[u8]
    ensures { result.now ≡ timeline_name timeline.now }
{
    match timeline {
        Timeline::Capacity { name, .. } => name.as_slice(),
        Timeline::Level { name, .. } => name.as_slice(),
        Timeline::States { name, .. } => name.as_slice(),
    }
}

/// The name of the timeline of this number.
fn line_name(model: &Model, line: u32) -> &[u8]
    ensures { result.now ≡ line_name model.now line }
{
    match model.timelines.as_slice().get(line as usize) {
        Some(timeline) => timeline_name(timeline),
        None => &[],
    }
}

fn side_word(high: bool) -> &'static [u8]
    ensures { result.now ≡ side_word high }
{
    if high { b"high" } else { b"low" }
}

fn push_spans_line(text: &mut Vec<u8>, all: &[Outside]) -> Result<(), AllocError>
    ensures { OnOk result (text.new.items ≡ text.old.items ++ spans_line all.now) }
{
    text.extend_from_slice(b"forecast spans")?;
    push_length(text, all.len())?;
    text.push(b'\n')?;
    Ok(())
}

#[tactic(auto, using(pl_journal::proofs::AboutRendering::Texts::words_joined))]
fn push_outside_words(
    text: &mut Vec<u8>,
    model: &Model,
    outside: &Outside,
) -> Result<(), AllocError>
    ensures { OnOk result (text.new.items ≡ text.old.items ++ spaced (line_name model.now outside.now.level ∷ decimal outside.now.from ∷ decimal outside.now.to ∷ [])) }
{
    push_word(text, line_name(model, outside.level))?;
    push_count(text, outside.from)?;
    push_count(text, outside.to)?;
    Ok(())
}

#[tactic(auto, using(crate::proofs::Texts::line_joined))]
fn push_outside_line(text: &mut Vec<u8>, model: &Model, outside: &Outside) -> Result<(), AllocError>
    ensures { OnOk result (text.new.items ≡ text.old.items ++ outside_line model.now outside.now) }
{
    text.extend_from_slice(side_word(outside.high))?;
    push_outside_words(text, model, outside)?;
    text.push(b'\n')?;
    Ok(())
}

fn push_outside_lines(text: &mut Vec<u8>, model: &Model, all: &[Outside]) -> Result<(), AllocError>
    ensures { OnOk result (text.new.items ≡ text.old.items ++ outside_lines model.now all.now) }
{
    for outside in all {
        push_outside_line(text, model, outside)?;
    }
    Ok(())
}

#[tactic(auto, unfolding(crate::specs::Forecasts::spans_text))]
fn spans_text(alloc: Global, model: &Model, all: &[Outside]) -> Result<Vec<u8>, AllocError>
    ensures { IfOk result (λ text. text.items ≡ spans_text model.now all.now) }
{
    let mut text = Vec::new(alloc);
    push_spans_line(&mut text, all)?;
    push_outside_lines(&mut text, model, all)?;
    Ok(text)
}

/// The forecast of a plan.
fn state_forecast(
    alloc: Global,
    state: &PlanState,
    rates: &[Rate],
) -> Result<Vec<Outside>, AllocError>
    requires whole { IsWhole state.now }
    requires rates { All (IsRateOf state.now.model) rates.now }
    ensures { IfOk result (λ all. all.items ≡ forecast_of state.now rates.now) }
{
    laws_of_bases();
    let model = state.model.get();
    let all = forecast(alloc, model, &state.plan, &state.bases, state.moment, rates)?;
    Ok(all)
}

/// Where the levels of a machine's plan leave their limits by these rates, from the present up to the horizon.
pub fn forecast_text(
    alloc: Global,
    machine: &Machine,
    rates: &[Rate],
) -> Result<Vec<u8>, AllocError>
    requires unspoiled { machine.now.spoiled ≡ false }
    requires rates { All (IsRateOf machine.now.model) rates.now }
    ensures { IfOk result (λ text. text.items ≡ forecast_text machine.now.world.state rates.now) }
{
    let _log = machine.log();
    let state = machine.board().state();
    let all = state_forecast(alloc, state, rates)?;
    let text = spans_text(alloc, state.model.get(), all.as_slice())?;
    Ok(text)
}

ghost use Rattle.std.specs.Prelude.{◌≡◌, ◌<◌, ◌≤◌, ◌^◌, length, option_map, IfOk};
ghost use Rattle.pl_model.specs.Checked.{IsChecked};
ghost use Rattle.pl_msg.specs.Reads.{Gives};
ghost use Rattle.pl_rate.specs.Rates.{signed, kind_by, rate_by, rate_with, rate_of, IsRateOf};

use crate::form::{Change, RateForm};
use crate::forms::form_of;
use crate::rate::Rate;
use pl_model::Model;
use pl_msg::{ParseFault, kind_of, level_of, tokens_of};
use pl_text::Token;
use std::alloc::Global;

/// The greatest change, up or down.
const MOST: u64 = 1_000_000;

fn signed(change: Change) -> i64
    requires { change.amount ≤ 1000000 }
    ensures { result ≡ signed change }
{
    let amount = change.amount as i64;
    if change.down { -amount } else { amount }
}

// The number of the kind, if one is named.
fn kind_by(model: &Model, line: &[u8], kind: Option<Token>) -> Result<Option<u32>, ParseFault>
    requires { IsChecked model.now }
    ensures { result ≡ kind_by model.now line.now kind }
{
    match kind {
        None => Ok(None),
        Some(kind) => {
            let (number, _) = kind_of(model, line, &kind)?;
            Ok(Some(number))
        }
    }
}

fn rate_by(kind: Option<u32>, level: u32, change: Change) -> Result<Rate, ParseFault>
    ensures { result ≡ rate_by kind level change }
{
    if change.amount > MOST {
        return Err(ParseFault::OutOfRange);
    }
    Ok(Rate {
        kind,
        level,
        change: signed(change),
    })
}

#[tactic(auto, unfolding(crate::specs::Rates::rate_with))]
fn rate_with(model: &Model, line: &[u8], form: RateForm) -> Result<Rate, ParseFault>
    requires { IsChecked model.now }
    ensures { result ≡ rate_with model.now line.now form }
{
    let kind = kind_by(model, line, form.kind)?;
    let level = level_of(model, line, &form.level)?;
    rate_by(kind, level, form.change)
}

/// The rate of a line, for a checked model.
#[tactic(auto, unfolding(crate::specs::Rates::rate_of))]
pub fn read_rate(alloc: Global, model: &Model, line: &[u8]) -> Result<Rate, ParseFault>
    requires checked { IsChecked model.now }
    requires short { length line.now < 2 ^ 32 }
    // The rate or the first fault, unless memory runs out.
    ensures answers { Gives result (rate_of model.now line.now) }
    // What it names is there, and its change is in range.
    ensures within { IfOk result (IsRateOf model.now) }
{
    let tokens = tokens_of(alloc, line)?;
    let form = form_of(line, &tokens)?;
    rate_with(model, line, form)
}

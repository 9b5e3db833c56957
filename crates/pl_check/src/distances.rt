//! Checks that the distances of links and orders are in range.
ghost use Rattle.std.specs.Prelude.{◌≡◌, ◌≤ℤ◌, pos};
ghost use Rattle.pl_check.specs.Judgements.{Gives, unless, each};
ghost use Rattle.pl_check.specs.Ranges.{is_between, is_distance, range_in_link, range_in_order, range_in_alternative};

use crate::drafts::DraftAlternative;
use crate::fault::{ModelFault, What};
use crate::ranges::{each, is_between, unless};
use pl_model::{Link, Order};

fn is_distance(horizon: i64, low: i64, high: i64) -> bool
    requires { pos 0 ≤ℤ horizon }
    ensures { result ≡ is_distance horizon low high }
{
    let low_fits = is_between(-horizon, horizon, low);
    let high_fits = is_between(-horizon, horizon, high);
    low_fits && high_fits && low <= high
}

#[tactic(auto, unfolding(crate::specs::Ranges::range_in_link))]
fn judge_link(horizon: i64, link: &Link) -> Result<(), ModelFault>
    requires { pos 0 ≤ℤ horizon }
    ensures { Gives result (range_in_link horizon link.now) }
{
    unless(is_distance(horizon, link.low, link.high), What::Link)
}

/// Answers the first link whose distances are out of range.
pub fn judge_links(horizon: i64, links: &[Link]) -> Result<(), ModelFault>
    requires { pos 0 ≤ℤ horizon }
    ensures { Gives result (each (range_in_link horizon) links.now) }
{
    for link in links {
        judge_link(horizon, link)?;
    }
    Ok(())
}

#[tactic(auto, unfolding(crate::specs::Ranges::range_in_order))]
fn judge_order(horizon: i64, order: &Order) -> Result<(), ModelFault>
    requires { pos 0 ≤ℤ horizon }
    ensures { Gives result (range_in_order horizon order.now) }
{
    unless(is_distance(horizon, order.low, order.high), What::Order)
}

fn judge_orders(horizon: i64, orders: &[Order]) -> Result<(), ModelFault>
    requires { pos 0 ≤ℤ horizon }
    ensures { Gives result (each (range_in_order horizon) orders.now) }
{
    for order in orders {
        judge_order(horizon, order)?;
    }
    Ok(())
}

fn judge_alternative(horizon: i64, alternative: &DraftAlternative) -> Result<(), ModelFault>
    requires { pos 0 ≤ℤ horizon }
    ensures { Gives result (range_in_alternative horizon alternative.now) }
{
    each(alternative.slots.as_slice())?;
    judge_orders(horizon, alternative.orders.as_slice())?;
    Ok(())
}

/// Answers the first slot or order of the alternatives with a number out of range.
pub fn judge_alternatives(horizon: i64, alternatives: &[DraftAlternative]) -> Result<(), ModelFault>
    requires { pos 0 ≤ℤ horizon }
    ensures { Gives result (each (range_in_alternative horizon) alternatives.now) }
{
    for alternative in alternatives {
        judge_alternative(horizon, alternative)?;
    }
    Ok(())
}

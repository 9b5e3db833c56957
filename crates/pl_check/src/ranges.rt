//! Checks that the numbers of a model are in range.
ghost use Rattle.std.specs.Prelude.{◌≡◌, ◌≤ℤ◌, pos, All, IfOk, map};
ghost use Rattle.pl_model.specs.Schedules.{param_range};
ghost use Rattle.pl_check.specs.declared.fault.ModelFault.TheVariants as fault;
ghost use Rattle.pl_check.specs.Judgements.{Judgement, Gives, unless, each};
ghost use Rattle.pl_check.specs.Ranges.{is_between, is_amount, is_level, literals_fit, range_in_expr, range_in_line, is_default, range_in_origin, range_in_param, duration_bounds, range_in_reservation, range_in_binding, range_in_slot, range_in_duration, range_in_kind, range_in_draft, range_in, NamesOwn, NamesOwnIn};

use crate::distances::{judge_alternatives, judge_links};
use crate::drafts::{Draft, DraftKind};
use crate::fault::{ModelFault, What};
use pl_model::{Expr, Origin, Param, Reservation, Slot, Timeline, bounds};
use std::alloc::{AllocError, Global};

const MOST_AMOUNT: i64 = 1_000_000_000;

const MOST_LEVEL: i64 = 1_000_000_000_000;

const LEAST_HORIZON: i64 = 2;

const MOST_HORIZON: i64 = 10_000_000;

/// What may hold numbers out of range, whatever the horizon.
pub trait Ranged {
    ghost ranged: { Self → Judgement };

    fn judge(&self) -> Result<(), ModelFault>
        ensures { Gives result (ranged self.now) };
}

/// Answers the first of them that has a number out of range.
pub fn each<T: Ranged>(items: &[T]) -> Result<(), ModelFault>
    ensures { Gives result (each T.ranged items.now) }
{
    for item in items {
        item.judge()?;
    }
    Ok(())
}

/// Answers that a number is out of range, unless a test says otherwise.
pub fn unless(test: bool, what: What) -> Result<(), ModelFault>
    ensures { Gives result (unless test (fault.Range what)) }
{
    if test {
        Ok(())
    } else {
        Err(ModelFault::Range(what))
    }
}

#[tactic(auto, unfolding(crate::specs::Ranges::is_between))]
/// Says whether a number lies between two bounds, both included.
pub fn is_between(low: i64, high: i64, number: i64) -> bool
    ensures { result ≡ is_between low high number }
{
    low <= number && number <= high
}

fn is_amount(number: i64) -> bool
    ensures { result ≡ is_amount number }
{
    is_between(0, MOST_AMOUNT, number)
}

fn is_level(number: i64) -> bool
    ensures { result ≡ is_level number }
{
    is_between(0, MOST_LEVEL, number)
}

fn literals_fit(expr: &Expr) -> bool
    ensures { result ≡ literals_fit expr.now }
{
    match expr {
        Expr::Num(number) => is_amount(*number),
        Expr::Param(_) => true,
        Expr::Apply(_, left, right) => literals_fit(left.get()) && literals_fit(right.get()),
    }
}

impl Ranged for Expr {
    ghost ranged = { range_in_expr };

    fn judge(&self) -> Result<(), ModelFault> {
        unless(literals_fit(self), What::Literal)
    }
}

fn judge_line(line: &Timeline) -> Result<(), ModelFault>
    ensures { Gives result (range_in_line line.now) }
{
    match line {
        Timeline::Capacity { most, .. } => unless(is_amount(*most), What::Capacity),
        Timeline::Level {
            least,
            most,
            start,
            ..
        } => unless(
            is_level(*least) && is_level(*most) && is_level(*start) && *least <= *most,
            What::Level,
        ),
        Timeline::States { .. } => Ok(()),
    }
}

fn is_default(low: i64, high: i64, origin: &Origin) -> bool
    ensures { result ≡ is_default low high origin.now }
{
    match origin {
        Origin::Free(None) => true,
        Origin::Free(Some(value)) => is_between(low, high, *value),
        Origin::Dependent(_) => true,
    }
}

impl Ranged for Origin {
    ghost ranged = { range_in_origin };

    fn judge(&self) -> Result<(), ModelFault> {
        match self {
            Origin::Free(_) => Ok(()),
            Origin::Dependent(value) => value.judge(),
        }
    }
}

impl Ranged for Param {
    ghost ranged = { range_in_param };

    fn judge(&self) -> Result<(), ModelFault> {
        let low = self.low;
        let high = self.high;
        let right = is_amount(low)
            && is_amount(high)
            && low <= high
            && is_default(low, high, &self.origin);
        unless(right, What::Param)?;
        self.origin.judge()?;
        Ok(())
    }
}

impl Ranged for Reservation {
    ghost ranged = { range_in_reservation };

    fn judge(&self) -> Result<(), ModelFault> {
        match self {
            Reservation::Take(_, amount) => amount.judge(),
            Reservation::Raise(_, amount, _) => amount.judge(),
            Reservation::Lower(_, amount, _) => amount.judge(),
            Reservation::Put(..) => Ok(()),
            Reservation::Must(..) => Ok(()),
        }
    }
}

impl Ranged for (u8, Expr) {
    ghost ranged = { range_in_binding };

    fn judge(&self) -> Result<(), ModelFault> {
        self.1.judge()
    }
}

impl Ranged for Slot {
    ghost ranged = { range_in_slot };

    fn judge(&self) -> Result<(), ModelFault> {
        each(self.bindings.as_slice())
    }
}

fn param_ranges(alloc: Global, params: &[Param]) -> Result<Vec<(i64, i64)>, AllocError>
    ensures { IfOk result (λ ranges. ranges.items ≡ map param_range params.now) }
{
    params
        .iter()
        .map(|param| (param.low, param.high))
        .collect(alloc)
}

/// The bounds of the duration, each parameter over its range.
pub fn duration_bounds(alloc: Global, kind: &DraftKind) -> Result<(i64, i64), AllocError>
    requires { NamesOwn kind.now }
    ensures { IfOk result (λ found. found ≡ duration_bounds kind.now) }
{
    let ranges = param_ranges(alloc, kind.params.as_slice())?;
    Ok(bounds(&kind.duration, ranges.as_slice()))
}

fn judge_duration(alloc: Global, horizon: i64, kind: &DraftKind) -> Result<(), ModelFault>
    requires { NamesOwn kind.now }
    ensures { Gives result (range_in_duration horizon kind.now) }
{
    kind.duration.judge()?;
    let (least, most) = duration_bounds(alloc, kind)?;
    unless(1 <= most && least <= horizon, What::Duration)?;
    Ok(())
}

fn judge_kind(alloc: Global, horizon: i64, kind: &DraftKind) -> Result<(), ModelFault>
    requires names { NamesOwn kind.now }
    requires horizon { pos 0 ≤ℤ horizon }
    ensures { Gives result (range_in_kind horizon kind.now) }
{
    each(kind.params.as_slice())?;
    judge_duration(alloc, horizon, kind)?;
    each(kind.reservations.as_slice())?;
    judge_links(horizon, kind.links.as_slice())?;
    judge_alternatives(horizon, kind.alternatives.as_slice())?;
    Ok(())
}

#[tactic(auto, unfolding(crate::specs::Ranges::range_in_draft))]
fn judge_draft(alloc: Global, horizon: i64, draft: &Draft) -> Result<(), ModelFault>
    requires names { NamesOwnIn draft.now }
    requires horizon { pos 0 ≤ℤ horizon }
    ensures { Gives result (range_in_draft horizon draft.now) }
{
    match draft {
        Draft::Timeline(line) => judge_line(line),
        Draft::Kind(kind) => judge_kind(alloc, horizon, kind),
    }
}

fn judge_drafts(alloc: Global, horizon: i64, drafts: &[Draft]) -> Result<(), ModelFault>
    requires names { All NamesOwnIn drafts.now }
    requires horizon { pos 0 ≤ℤ horizon }
    ensures { Gives result (each (range_in_draft horizon) drafts.now) }
{
    for draft in drafts {
        judge_draft(alloc, horizon, draft)?;
    }
    Ok(())
}

#[tactic(auto, unfolding(crate::specs::Ranges::is_between))]
/// Whether every number lies in its range.
pub fn judge_ranges(
    alloc: Global,
    horizon: i64,
    lead: i64,
    drafts: &[Draft],
) -> Result<(), ModelFault>
    requires { All NamesOwnIn drafts.now }
    ensures { Gives result (range_in horizon lead drafts.now) }
{
    if horizon < LEAST_HORIZON || horizon > MOST_HORIZON {
        return Err(ModelFault::Range(What::Horizon));
    }
    unless(is_between(1, horizon, lead), What::Lead)?;
    judge_drafts(alloc, horizon, drafts)?;
    Ok(())
}

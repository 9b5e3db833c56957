//! Checks that each alternative has a schedule, and works out least durations and offsets.
ghost use Rattle.std.specs.Prelude.{◌≡◌, ℕ, ◌<◌, ◌≤◌, ◌+◌, ◌*◌, ◌≤ℤ◌, pos, map, length, slice_index, All, IfOk, IfErr};
ghost use Rattle.pl_stn.specs.Nets.{time_of};
ghost use Rattle.pl_check.specs.Ranges.{NamesOwn};
ghost use Rattle.pl_check.specs.Sound.{IsSoundAlternative, IsSoundKind};
ghost use Rattle.pl_lists.specs.Lists.{Pairwise};
ghost use Rattle.pl_check.specs.Networks.{IsSpan, IsHorizon, IsNearOrder, IsNearAlternative, IsNearKind, cut_to, span_of, net_of, HasOffsets, FinishesAlternative, FinishesKind};
ghost use Rattle.pl_check.specs.Schedules.{IfOffsets, IfCycle, IsConflict, IsUnscheduledIn, IsUnscheduledFault};

use crate::drafts::{DraftAlternative, DraftKind};
use crate::fault::ModelFault;
use crate::networks::network;
use crate::ranges::duration_bounds;
use crate::schedule::Schedule;
use pl_lists::{Copied, Items};
use pl_model::{Alternative, Kind};
use pl_stn::{Verdict, solve};
use std::alloc::{AllocError, Global};

#[tactic(auto, using(crate::proofs::ScheduleLemmas::cut_least, crate::proofs::ScheduleLemmas::cut_most))]
fn cut_to(horizon: i64, number: i64) -> i64
    requires { IsHorizon horizon }
    ensures cut { result ≡ cut_to horizon number }
    ensures least { pos 1 ≤ℤ result }
    ensures most { result ≤ℤ pos 10000000 }
{
    number.max(1).min(horizon)
}

/// The least and the greatest duration of a kind, from 1 to the horizon.
fn span_of(alloc: Global, horizon: i64, kind: &DraftKind) -> Result<(i64, i64), AllocError>
    requires names { NamesOwn kind.now }
    requires horizon { IsHorizon horizon }
    ensures span { IfOk result (λ span. span ≡ span_of horizon kind.now) }
    ensures near { IfOk result IsSpan }
{
    let (least, most) = duration_bounds(alloc, kind)?;
    Ok((cut_to(horizon, least), cut_to(horizon, most)))
}

/// The spans of all kinds, by number.
#[tactic(auto, using(crate::proofs::ScheduleLemmas::spans_near))]
pub fn spans_of(
    alloc: Global,
    horizon: i64,
    kinds: &[DraftKind],
) -> Result<Items<(i64, i64)>, AllocError>
    requires names { All NamesOwn kinds.now }
    requires horizon { IsHorizon horizon }
    ensures spans { IfOk result (λ spans. spans ≡ map (span_of horizon) kinds.now) }
    ensures near { IfOk result (All IsSpan) }
{
    let mut spans = Items::new(alloc);
    for kind in kinds {
        spans.push(span_of(alloc, horizon, kind)?)?;
    }
    Ok(spans)
}

fn least_duration(span: (i64, i64)) -> u32
    requires { IsSpan span }
    ensures { pos result ≡ span.0 }
{
    span.0 as u32
}

/// The slots' starts among the times of the network's points.
fn starts(alloc: Global, times: &[i64], slots: usize) -> Result<Items<u32>, AllocError>
    requires few { slots ≤ 16 }
    requires each_point { length times.now ≡ 2 * slots + 2 }
    requires from { (p : ℕ) → pos 0 ≤ℤ time_of times.now p }
    requires to { (p : ℕ) → time_of times.now p ≤ℤ pos 3400000000 }
    ensures each_slot { IfOk result (λ starts. length starts ≡ slots) }
    ensures starts { IfOk result (λ starts. (i : ℕ) → i < slots → pos (slice_index starts i) ≡ time_of times.now (2 * i + 2)) }
{
    let mut starts = Items::new(alloc);
    for slot in 0..slots {
        starts.push(times[2 * slot + 2] as u32)?;
    }
    Ok(starts)
}

#[tactic(auto, using(crate::proofs::ScheduleLemmas::times_from, crate::proofs::ScheduleLemmas::times_to, crate::proofs::ScheduleLemmas::offsets_of))]
/// The offsets of an alternative of a kind with this span, or a negative cycle of its network.
fn schedule(
    alloc: Global,
    spans: &[(i64, i64)],
    own: (i64, i64),
    alternative: &DraftAlternative,
) -> Result<Schedule, AllocError>
    requires spans { All IsSpan spans.now }
    requires own { IsSpan own }
    requires sound { IsSoundAlternative (length spans.now) alternative.now }
    requires near { IsNearAlternative alternative.now }
    ensures offsets { IfOk result (λ s. IfOffsets s (HasOffsets (net_of spans.now own alternative.now) (length alternative.now.slots))) }
    ensures cycle { IfOk result (λ s. IfCycle s (IsConflict (net_of spans.now own alternative.now))) }
{
    let net = network(alloc, spans, own, alternative)?;
    match solve(alloc, &net)? {
        Verdict::Times(times) => Ok(Schedule::Offsets(starts(
            alloc,
            times.as_slice(),
            alternative.slots.len(),
        )?)),
        Verdict::Cycle(cycle) => Ok(Schedule::Cycle(cycle)),
    }
}

fn finish_alternative(
    alloc: Global,
    alternative: &DraftAlternative,
    offsets: Items<u32>,
) -> Result<Alternative, AllocError>
    ensures { IfOk result (λ a. a ≡ record { slots = alternative.now.slots; orders = alternative.now.orders; offsets = offsets }) }
{
    Ok(Alternative {
        slots: alternative.slots.copy(alloc)?,
        orders: alternative.orders.copy(alloc)?,
        offsets,
    })
}

#[tactic(auto, using(crate::proofs::ScheduleLemmas::pairwise_step, crate::proofs::ScheduleLemmas::finished_alternative, crate::proofs::ScheduleLemmas::conflict_at))]
fn finish_alternatives(
    alloc: Global,
    spans: &[(i64, i64)],
    own: (i64, i64),
    kind: &DraftKind,
) -> Result<Items<Alternative>, ModelFault>
    requires spans { All IsSpan spans.now }
    requires own { IsSpan own }
    requires sound { IsSoundKind (length spans.now) kind.now }
    requires near { IsNearKind kind.now }
    ensures ok { IfOk result (Pairwise (FinishesAlternative spans.now own) kind.now.alternatives) }
    ensures err { IfErr result (IsUnscheduledIn spans.now own kind.now) }
{
    let mut finished = Items::new(alloc);
    for (number, alternative) in kind.alternatives.as_slice().iter().enumerate() {
        match schedule(alloc, spans, own, alternative)? {
            Schedule::Offsets(offsets) => {
                finished.push(finish_alternative(alloc, alternative, offsets)?)?;
            }
            Schedule::Cycle(cycle) => {
                let name = kind.name.copy(alloc)?;
                return Err(ModelFault::NoSchedule(name, number as u32, cycle));
            }
        }
    }
    Ok(finished)
}

fn finish_kind(
    alloc: Global,
    horizon: i64,
    spans: &[(i64, i64)],
    kind: &DraftKind,
) -> Result<Kind, ModelFault>
    requires horizon { IsHorizon horizon }
    requires spans { All IsSpan spans.now }
    requires sound { IsSoundKind (length spans.now) kind.now }
    requires near { IsNearKind kind.now }
    ensures ok { IfOk result (FinishesKind horizon spans.now kind.now) }
    ensures err { IfErr result (IsUnscheduledIn spans.now (span_of horizon kind.now) kind.now) }
{
    let own = span_of(alloc, horizon, kind)?;
    let alternatives = finish_alternatives(alloc, spans, own, kind)?;
    Ok(Kind {
        name: kind.name.copy(alloc)?,
        params: kind.params.copy(alloc)?,
        duration: kind.duration.copy(alloc)?,
        least_duration: least_duration(own),
        reservations: kind.reservations.copy(alloc)?,
        links: kind.links.copy(alloc)?,
        alternatives,
    })
}

#[tactic(auto, using(crate::proofs::ScheduleLemmas::pairwise_step, crate::proofs::ScheduleLemmas::first_unscheduled))]
/// The kinds of the model, each with its least duration and its alternatives' offsets.
pub fn finish_kinds(
    alloc: Global,
    horizon: i64,
    spans: &[(i64, i64)],
    kinds: &[DraftKind],
) -> Result<Items<Kind>, ModelFault>
    requires horizon { IsHorizon horizon }
    requires each_kind { length spans.now ≡ length kinds.now }
    requires spans { All IsSpan spans.now }
    requires sound { All (IsSoundKind (length kinds.now)) kinds.now }
    requires near { All IsNearKind kinds.now }
    ensures ok { IfOk result (Pairwise (FinishesKind horizon spans.now) kinds.now) }
    ensures err { IfErr result (IsUnscheduledFault horizon spans.now kinds.now) }
{
    let mut finished = Items::new(alloc);
    for kind in kinds {
        finished.push(finish_kind(alloc, horizon, spans, kind)?)?;
    }
    Ok(finished)
}

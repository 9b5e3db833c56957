//! Help for a timeline: additions of activities that change it so that a conflict may go.
ghost use Rattle.std.specs.Prelude.{◌≡◌, ℕ, List, ◌∷◌, ◌++◌, map, pos, IfOk, OnOk};
ghost use Rattle.std.specs.Int.{int_min, int_max};
ghost use Rattle.std.specs.List.{flat_map, list_any};
ghost use Rattle.pl_semantics.specs.Whole.{IsWhole};
ghost use Rattle.pl_semantics.specs.Starts.{adds_of, floor_at, help_until, helpers, last_of, spread};
ghost use Rattle.pl_model.specs.declared.kinds.Kind.{Kind};
ghost use Rattle.pl_cand.specs.Tests.{helps};
ghost use Rattle.pl_cand.specs.Helping.{helpers_with, number_of};

use crate::help::Help;
use crate::reading::{floor, to_last};
use crate::starts::add_news;
use crate::strides::spread;
use pl_model::{Kind, Reservation};
use pl_plan::RepairMove;
use pl_semantics::PlanState;
use std::alloc::{AllocError, Global};

/// How many kinds are tried as helpers, at most.
const MOST: usize = 4;

fn helps(timeline: u32, help: Help, reservation: &Reservation) -> bool
    ensures { result ≡ helps timeline help reservation.now }
{
    match (help, reservation) {
        (Help::Raise, Reservation::Raise(of, _, _)) => *of == timeline,
        (Help::Lower, Reservation::Lower(of, _, _)) => *of == timeline,
        (Help::SetState(wanted), Reservation::Put(of, state, _)) => *of == timeline
            && *state == wanted,
        (Help::SetAny, Reservation::Put(of, _, _)) => *of == timeline,
        _ => false,
    }
}

fn is_helper(timeline: u32, help: Help, kind: &Kind) -> bool
    ensures { result ≡ list_any (helps timeline help) kind.now.reservations }
{
    for reservation in kind.reservations.as_slice() {
        if helps(timeline, help, reservation) {
            return true;
        }
    }
    false
}

// The starts, up to a moment, that are tried for an activity that helps.
fn starts_until(alloc: Global, state: &PlanState, until: u32) -> Result<Vec<i64>, AllocError>
    requires { IsWhole state.now }
    ensures { IfOk result (λ all. all.items ≡ spread (floor_at state.now) (int_max (floor_at state.now) (int_min (pos until) (last_of state.now)))) }
{
    let low = floor(state);
    spread(alloc, low, low.max(to_last(state, i64::from(until))))
}

// Puts the number of a kind at the end if the kind helps, as long as there are fewer than four.
#[tactic(auto, using(crate::proofs::Keeping::helpers_full, crate::proofs::Keeping::helpers_past, crate::proofs::Keeping::helpers_more))]
fn add_if_helper(
    timeline: u32,
    help: Help,
    number: u32,
    kind: &Kind,
    found: &mut Vec<u32>,
) -> Result<(), AllocError>
    ensures { OnOk result ((rest : List (ℕ × Kind)) → helpers_with timeline help found.old.items ((number, kind.now) ∷ rest) ≡ helpers_with timeline help found.new.items rest) }
{
    if found.len() >= MOST {
        return Ok(());
    }
    if is_helper(timeline, help, kind) {
        found.push(number)?;
    }
    Ok(())
}

// The numbers of the first four kinds that help.
fn first_helpers(
    alloc: Global,
    state: &PlanState,
    timeline: u32,
    help: Help,
) -> Result<Vec<u32>, AllocError>
    requires { IsWhole state.now }
    ensures { IfOk result (λ ks. ks.items ≡ map number_of (helpers state.now (helps timeline help))) }
{
    let kinds = state.model.get().kinds.as_slice();
    let mut found = Vec::new(alloc);
    for (number, kind) in kinds.iter().enumerate() {
        add_if_helper(timeline, help, number as u32, kind, &mut found)?;
    }
    Ok(found)
}

// Appends additions of an activity of each of these kinds, one for each of these starts.
fn add_each(
    state: &PlanState,
    kinds: &[u32],
    starts: &[i64],
    out: &mut Vec<RepairMove>,
) -> Result<(), AllocError>
    ensures { OnOk result (out.new.items ≡ out.old.items ++ flat_map (adds_of state.now starts.now) kinds.now) }
{
    for kind in kinds {
        add_news(state, *kind, None, starts, out)?;
    }
    Ok(())
}

/// Appends additions of an activity of each of the first four kinds that help, one for each start that is tried up to a moment.
pub(crate) fn add_help(
    alloc: Global,
    state: &PlanState,
    timeline: u32,
    help: Help,
    until: u32,
    out: &mut Vec<RepairMove>,
) -> Result<(), AllocError>
    requires { IsWhole state.now }
    ensures { OnOk result (out.new.items ≡ out.old.items ++ help_until state.now (helpers state.now (helps timeline help)) until) }
{
    let kinds = first_helpers(alloc, state, timeline, help)?;
    let starts = starts_until(alloc, state, until)?;
    add_each(state, kinds.as_slice(), starts.as_slice(), out)?;
    Ok(())
}

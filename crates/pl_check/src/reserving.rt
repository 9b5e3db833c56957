//! Reservations and links with their names numbered.
ghost use Rattle.std.specs.Prelude.{◌≤◌, length};
ghost use Rattle.pl_check.specs.Judgements.{Gives};
ghost use Rattle.pl_check.specs.Sizes.{IsScope};
ghost use Rattle.pl_check.specs.Numbering.{state_named, numbered_reservations, numbered_reservation, numbered_link, numbered_links};

use crate::fault::ModelFault;
use crate::finding::{capacity_named, kind_named, level_named, states_named};
use crate::names::Names;
use crate::numbering::{known, number_expr, number_state};
use pl_lists::{Copied, Items};
use pl_model::{Link, Name, Reservation};
use pl_syntax::{AstLink, AstParam, AstReservation, Item};
use std::alloc::Global;

/// The numbers of a state timeline and of a state of it.
fn number_state_of(
    alloc: Global,
    names: &Names,
    items: &[Item],
    name: &Name,
    state: &Name,
) -> Result<(u32, u32), ModelFault>
    requires { IsScope names.now items.now }
    ensures { Gives result (state_named items.now name.now state.now) }
{
    match states_named(names, items, name.as_slice()) {
        None => Err(ModelFault::Unknown(name.copy(alloc)?)),
        Some((line, states)) => Ok((line, number_state(alloc, states, state)?)),
    }
}

fn number_reservation(
    alloc: Global,
    names: &Names,
    items: &[Item],
    params: &[AstParam],
    reservation: &AstReservation,
) -> Result<Reservation, ModelFault>
    requires scope { IsScope names.now items.now }
    requires params { length params.now ≤ 16 }
    ensures { Gives result (numbered_reservation items.now params.now reservation.now) }
{
    match reservation {
        AstReservation::Take(name, amount) => {
            let line = known(alloc, name, capacity_named(names, items, name.as_slice()))?;
            let amount = number_expr(alloc, params, amount)?;
            Ok(Reservation::Take(line, amount))
        }
        AstReservation::Raise(name, amount, point) => {
            let line = known(alloc, name, level_named(names, items, name.as_slice()))?;
            let amount = number_expr(alloc, params, amount)?;
            Ok(Reservation::Raise(line, amount, *point))
        }
        AstReservation::Lower(name, amount, point) => {
            let line = known(alloc, name, level_named(names, items, name.as_slice()))?;
            let amount = number_expr(alloc, params, amount)?;
            Ok(Reservation::Lower(line, amount, *point))
        }
        AstReservation::Put(name, state, point) => {
            let (line, state) = number_state_of(alloc, names, items, name, state)?;
            Ok(Reservation::Put(line, state, *point))
        }
        AstReservation::Must(name, state) => {
            let (line, state) = number_state_of(alloc, names, items, name, state)?;
            Ok(Reservation::Must(line, state))
        }
    }
}

#[tactic(auto, using(crate::proofs::LoopLemmas::made_whole), unfolding(crate::specs::Numbering::numbered_reservations))]
/// The reservations of a kind with their names numbered.
pub fn number_reservations(
    alloc: Global,
    names: &Names,
    items: &[Item],
    params: &[AstParam],
    reservations: &[AstReservation],
) -> Result<Items<Reservation>, ModelFault>
    requires scope { IsScope names.now items.now }
    requires params { length params.now ≤ 16 }
    ensures { Gives result (numbered_reservations items.now params.now reservations.now) }
{
    let mut all = Items::new(alloc);
    for reservation in reservations {
        all.push(number_reservation(alloc, names, items, params, reservation)?)?;
    }
    Ok(all)
}

fn number_link(
    alloc: Global,
    names: &Names,
    items: &[Item],
    link: &AstLink,
) -> Result<Link, ModelFault>
    requires { IsScope names.now items.now }
    ensures { Gives result (numbered_link items.now link.now) }
{
    match kind_named(names, items, link.kind.as_slice()) {
        None => Err(ModelFault::Unknown(link.kind.copy(alloc)?)),
        Some((kind, _)) => Ok(Link {
            mine: link.mine,
            kind,
            theirs: link.theirs,
            low: link.low,
            high: link.high,
        }),
    }
}

#[tactic(auto, using(crate::proofs::LoopLemmas::made_whole), unfolding(crate::specs::Numbering::numbered_links))]
/// The links of a kind with their names numbered.
pub fn number_links(
    alloc: Global,
    names: &Names,
    items: &[Item],
    links: &[AstLink],
) -> Result<Items<Link>, ModelFault>
    requires { IsScope names.now items.now }
    ensures { Gives result (numbered_links items.now links.now) }
{
    let mut all = Items::new(alloc);
    for link in links {
        all.push(number_link(alloc, names, items, link)?)?;
    }
    Ok(all)
}

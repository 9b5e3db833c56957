//! Kinds and timelines with their names numbered.
ghost use Rattle.std.specs.Prelude.{◌≡◌, length, All, IfOk, count_by, [], ◌∷◌, if◌then◌else◌};
ghost use Rattle.pl_check.specs.Judgements.{Gives};
ghost use Rattle.pl_check.specs.Sizes.{IsScope, IsSmallKind, IsSmallItem};
ghost use Rattle.pl_model.specs.Values.{NamesBelow};
ghost use Rattle.pl_check.specs.Finding.{is_kind};
ghost use Rattle.pl_check.specs.Drafting.{kinds_in};
ghost use Rattle.pl_check.specs.Sound.{IsSoundKind, IsSoundDraft};
ghost use Rattle.pl_check.specs.Numbering.{numbered_duration, numbered_head, numbered_asks, numbered_kind, numbered_item, numbered_items};

use crate::decomposing::number_alternatives;
use crate::drafts::{Draft, DraftKind};
use crate::fault::ModelFault;
use crate::names::Names;
use crate::numbering::{number_expr, number_line, number_params};
use crate::reserving::{number_links, number_reservations};
use pl_lists::{Copied, Items};
use pl_model::{Expr, Link, Param, Reservation};
use pl_syntax::{AstKind, Item};
use std::alloc::Global;

#[tactic(auto, unfolding(crate::specs::Numbering::numbered_duration))]
fn number_duration(alloc: Global, kind: &AstKind) -> Result<Expr, ModelFault>
    requires { IsSmallKind kind.now }
    ensures gives { Gives result (numbered_duration kind.now) }
    ensures below { IfOk result (NamesBelow (length kind.now.params)) }
{
    number_expr(alloc, kind.params.as_slice(), &kind.duration)
}

fn number_head(alloc: Global, kind: &AstKind) -> Result<(Items<Param>, Expr), ModelFault>
    requires { IsSmallKind kind.now }
    ensures gives { Gives result (numbered_head kind.now) }
    ensures below { IfOk result (λ head. NamesBelow (length head.0) head.1) }
{
    let params = number_params(alloc, kind.params.as_slice())?;
    let duration = number_duration(alloc, kind)?;
    Ok((params, duration))
}

fn number_asks(
    alloc: Global,
    names: &Names,
    items: &[Item],
    kind: &AstKind,
) -> Result<(Items<Reservation>, Items<Link>), ModelFault>
    requires scope { IsScope names.now items.now }
    requires small { IsSmallKind kind.now }
    ensures { Gives result (numbered_asks items.now kind.now) }
{
    let reservations = number_reservations(
        alloc,
        names,
        items,
        kind.params.as_slice(),
        kind.reservations.as_slice(),
    )?;
    let links = number_links(alloc, names, items, kind.links.as_slice())?;
    Ok((reservations, links))
}

fn number_kind(
    alloc: Global,
    names: &Names,
    items: &[Item],
    kind: &AstKind,
) -> Result<DraftKind, ModelFault>
    requires scope { IsScope names.now items.now }
    requires small { IsSmallKind kind.now }
    ensures gives { Gives result (numbered_kind items.now kind.now) }
    ensures sound { IfOk result (IsSoundKind (count_by is_kind items.now)) }
{
    let (params, duration) = number_head(alloc, kind)?;
    let (reservations, links) = number_asks(alloc, names, items, kind)?;
    let alternatives = number_alternatives(
        alloc,
        names,
        items,
        kind.params.as_slice(),
        kind.alternatives.as_slice(),
    )?;
    Ok(DraftKind {
        name: kind.name.copy(alloc)?,
        params,
        duration,
        reservations,
        links,
        alternatives,
    })
}

fn number_item(
    alloc: Global,
    names: &Names,
    items: &[Item],
    item: &Item,
) -> Result<Draft, ModelFault>
    requires scope { IsScope names.now items.now }
    requires small { IsSmallItem item.now }
    ensures gives { Gives result (numbered_item items.now item.now) }
    ensures sound { IfOk result (IsSoundDraft (count_by is_kind items.now)) }
    ensures sort { IfOk result (λ d. length (kinds_in (d ∷ [])) ≡ (if is_kind item.now then 1 else 0)) }
{
    match item {
        Item::Timeline(line) => Ok(Draft::Timeline(number_line(alloc, line)?)),
        Item::Kind(kind) => Ok(Draft::Kind(number_kind(alloc, names, items, kind)?)),
    }
}

#[tactic(auto, using(crate::proofs::KindLemmas::kinds_step, crate::proofs::LoopLemmas::made_whole))]
/// The timelines and kinds of the text with their names numbered.
pub fn number_items(
    alloc: Global,
    names: &Names,
    items: &[Item],
) -> Result<Items<Draft>, ModelFault>
    requires { IsScope names.now items.now }
    ensures gives { Gives result (numbered_items items.now) }
    ensures sound { IfOk result (All (IsSoundDraft (count_by is_kind items.now))) }
    ensures kinds { IfOk result (λ drafts. length (kinds_in drafts) ≡ count_by is_kind items.now) }
{
    let mut all = Items::new(alloc);
    for item in items {
        all.push(number_item(alloc, names, items, item)?)?;
    }
    Ok(all)
}

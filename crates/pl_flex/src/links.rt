//! How far apart the temporal links let activities and their partners be.
ghost use Rattle.std.specs.Prelude.{◌≡◌, ◌≤◌, ◌<◌, ◌++◌, length, OnOk, All, IfSome, ◌≤ℤ◌, negsuc};
ghost use Rattle.std.specs.List.{flat_map};
ghost use Rattle.pl_links.specs.Broken.{are_apart, is_apart, is_partner, links_of, moment_of};
ghost use Rattle.pl_semantics.specs.Whole.{IsWhole};
ghost use Rattle.pl_semantics.specs.PlanStates.{numbered};
ghost use Rattle.pl_flex.specs.FlexNets.{is_to_start, partner_place, edges_of_link, edges_of_links};

use crate::edges::push_between_places;
use crate::places::is_settled;
use pl_links::Placed;
use pl_model::{Link, Model, Point};
use pl_semantics::PlanState;
use pl_stn::Edge;
use std::alloc::AllocError;

fn links_of<'m>(model: &'m Model, p: &Placed) -> &'m [Link]
    ensures { result.now ≡ links_of model.now p.now }
{
    match model.kinds.as_slice().get(p.kind as usize) {
        Some(kind) => kind.links.as_slice(),
        None => &[],
    }
}

/// The same, of a model whose distances are near 0.
#[tactic(auto, using(crate::proofs::Extents::near_links))]
fn near_links<'s>(s: &'s PlanState, p: &Placed) -> &'s [Link]
    requires { IsWhole s.now }
    ensures value { result.now ≡ links_of s.now.model p.now }
    ensures near { All (λ l. negsuc 99999999 ≤ℤ l.low) result.now }
{
    links_of(s.model.get(), p)
}

fn moment_of(point: Point, p: &Placed) -> Option<u32>
    ensures { result ≡ moment_of point p.now }
{
    let end = p.end?;
    match point {
        Point::Start => Some(p.start),
        Point::End => Some(end),
    }
}

fn is_apart(low: i64, high: i64, first: u32, second: u32) -> bool
    ensures { result ≡ is_apart low high first second }
{
    let distance = i64::from(second) - i64::from(first);
    low <= distance && distance <= high
}

fn are_apart(low: i64, high: i64, first: Option<u32>, second: Option<u32>) -> bool
    ensures { result ≡ are_apart low high first second }
{
    match (first, second) {
        (Some(first), Some(second)) => is_apart(low, high, first, second),
        _ => false,
    }
}

fn is_partner(link: &Link, own: &Placed, other: &Placed) -> bool
    ensures { result ≡ is_partner link.now own.now other.now }
{
    other.id != own.id
        && other.kind == link.kind
        && are_apart(
            link.low,
            link.high,
            moment_of(link.mine, own),
            moment_of(link.theirs, other),
        )
}

/// The place of the partner of the least id.
fn partner_place(firm: &[Placed], link: &Link, own: &Placed) -> Option<usize>
    ensures value { result ≡ partner_place firm.now link.now own.now }
    ensures within { IfSome result (λ k. k < length firm.now) }
{
    firm.iter().position(|other| is_partner(link, own, other))
}

fn is_to_start(s: &PlanState, p: &Placed) -> bool
    ensures { result ≡ is_to_start s.now p.now }
{
    !(is_settled(s, p) && p.start <= s.moment)
}

fn push_link(
    edges: &mut Vec<Edge>,
    firm: &[Placed],
    place: usize,
    own: &Placed,
    link: &Link,
) -> Result<(), AllocError>
    requires few { length firm.now ≤ 10000 }
    requires place { place < length firm.now }
    requires low { negsuc 99999999 ≤ℤ link.now.low }
    ensures { OnOk result (edges.new.items ≡ edges.old.items ++ edges_of_link firm.now (place, own.now) link.now) }
{
    push_between_places(
        edges,
        Some(place),
        link.mine,
        partner_place(firm, link, own),
        link.theirs,
        link.low,
        link.high,
    )
}

fn push_links_of(
    s: &PlanState,
    edges: &mut Vec<Edge>,
    firm: &[Placed],
    place: usize,
    own: &Placed,
) -> Result<(), AllocError>
    requires whole { IsWhole s.now }
    requires few { length firm.now ≤ 10000 }
    requires place { place < length firm.now }
    ensures { OnOk result (edges.new.items ≡ edges.old.items ++ flat_map (edges_of_link firm.now (place, own.now)) (links_of s.now.model own.now)) }
{
    for link in near_links(s, own) {
        push_link(edges, firm, place, own, link)?;
    }
    Ok(())
}

fn push_own_links(
    s: &PlanState,
    edges: &mut Vec<Edge>,
    firm: &[Placed],
    place: usize,
    own: &Placed,
) -> Result<(), AllocError>
    requires whole { IsWhole s.now }
    requires few { length firm.now ≤ 10000 }
    requires place { place < length firm.now }
    ensures { OnOk result (edges.new.items ≡ edges.old.items ++ edges_of_links s.now firm.now (place, own.now)) }
{
    if is_to_start(s, own) {
        return push_links_of(s, edges, firm, place, own);
    }
    Ok(())
}

pub fn push_links(s: &PlanState, edges: &mut Vec<Edge>, firm: &[Placed]) -> Result<(), AllocError>
    requires whole { IsWhole s.now }
    requires few { length firm.now ≤ 10000 }
    ensures { OnOk result (edges.new.items ≡ edges.old.items ++ flat_map (edges_of_links s.now firm.now) (numbered 0 firm.now)) }
{
    for (place, own) in firm.iter().enumerate() {
        push_own_links(s, edges, firm, place, own)?;
    }
    Ok(())
}

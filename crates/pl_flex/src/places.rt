//! Where activities may lie: committed ones where they are, others from the floor on and up to the horizon.
ghost use Rattle.std.specs.Prelude.{◌≡◌, ◌≤◌, ◌<◌, ◌++◌, length, OnOk, Some};
ghost use Rattle.std.specs.List.{flat_map};
ghost use Rattle.std.specs.Option.{option_copied};
ghost use Rattle.pl_semantics.specs.Whole.{IsWhole};
ghost use Rattle.pl_semantics.specs.PlanStates.{numbered};
ghost use Rattle.pl_flex.specs.FlexNets.{is_settled, edges_of_settled, edges_within, edges_of_planned, edges_of_place, goal_served};

use crate::edges::{point_at, push_between, push_edge};
use pl_facts::Goal;
use pl_links::Placed;
use pl_model::Point;
use pl_semantics::PlanState;
use pl_stn::Edge;
use std::alloc::AllocError;

/// Whether the activity is committed.
pub fn is_settled(s: &PlanState, p: &Placed) -> bool
    ensures { result ≡ is_settled s.now p.now }
{
    p.start < s.committed
}

fn push_settled(edges: &mut Vec<Edge>, place: usize, p: &Placed) -> Result<(), AllocError>
    requires { place < 10000 }
    ensures { OnOk result (edges.new.items ≡ edges.old.items ++ edges_of_settled (place, p.now)) }
{
    let start = i64::from(p.start);
    push_between(edges, 0, point_at(place, Point::Start), start, start)
}

fn push_within(
    s: &PlanState,
    edges: &mut Vec<Edge>,
    place: usize,
    first: u32,
) -> Result<(), AllocError>
    requires { place < 10000 }
    ensures { OnOk result (edges.new.items ≡ edges.old.items ++ edges_within s.now place first) }
{
    push_edge(edges, point_at(place, Point::Start), 0, -i64::from(first))?;
    push_edge(
        edges,
        0,
        point_at(place, Point::End),
        i64::from(s.model.get().horizon),
    )?;
    Ok(())
}

fn push_planned(
    s: &PlanState,
    edges: &mut Vec<Edge>,
    place: usize,
    goal: Option<&Goal>,
) -> Result<(), AllocError>
    requires whole { IsWhole s.now }
    requires place { place < 10000 }
    ensures { OnOk result (edges.new.items ≡ edges.old.items ++ edges_of_planned s.now place (option_copied goal.entry)) }
{
    match goal {
        None => push_within(s, edges, place, s.floor()),
        Some(goal) => push_serving(s, edges, place, goal),
    }
}

fn goal_served(s: &PlanState, id: u32) -> Option<&Goal>
    ensures { option_copied result ≡ goal_served s.now id }
{
    let activity = s.live(id)?;
    match activity.parent {
        Some(_) => None,
        None => s.goals.get(activity.goal?),
    }
}

fn push_serving(
    s: &PlanState,
    edges: &mut Vec<Edge>,
    place: usize,
    goal: &Goal,
) -> Result<(), AllocError>
    requires whole { IsWhole s.now }
    requires place { place < 10000 }
    ensures { OnOk result (edges.new.items ≡ edges.old.items ++ edges_of_planned s.now place (Some goal.now)) }
{
    push_within(s, edges, place, s.floor().max(goal.earliest))?;
    push_edge(
        edges,
        0,
        point_at(place, Point::Start),
        i64::from(goal.latest),
    )?;
    Ok(())
}

fn push_place(
    s: &PlanState,
    edges: &mut Vec<Edge>,
    place: usize,
    p: &Placed,
) -> Result<(), AllocError>
    requires whole { IsWhole s.now }
    requires place { place < 10000 }
    ensures { OnOk result (edges.new.items ≡ edges.old.items ++ edges_of_place s.now (place, p.now)) }
{
    if is_settled(s, p) {
        push_settled(edges, place, p)
    } else {
        push_planned(s, edges, place, goal_served(s, p.id))
    }
}

pub fn push_places(s: &PlanState, edges: &mut Vec<Edge>, firm: &[Placed]) -> Result<(), AllocError>
    requires whole { IsWhole s.now }
    requires few { length firm.now ≤ 10000 }
    ensures { OnOk result (edges.new.items ≡ edges.old.items ++ flat_map (edges_of_place s.now) (numbered 0 firm.now)) }
{
    for (place, p) in firm.iter().enumerate() {
        push_place(s, edges, place, p)?;
    }
    Ok(())
}

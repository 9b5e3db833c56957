ghost use Rattle.std.specs.Prelude.{◌≡◌, ◌+◌, ◌*◌, ◌≤◌, length, IfOk};
ghost use Rattle.pl_semantics.specs.Whole.{IsWhole};
ghost use Rattle.pl_semantics.specs.Links.{placed_in};
ghost use Rattle.pl_times.specs.Bounded.{IsEarly, IsLate};
ghost use Rattle.pl_flex.specs.FlexNets.{edges_of_plan, firm_in, flex_net};
ghost use Rattle.pl_flex.specs.Answers.{IsAnswer, AreWindowsOf, HasFewEdges};

use crate::durations::{push_durations, push_origins};
use crate::flex::Flex;
use crate::flexed::Flexed;
use crate::links::push_links;
use crate::orders::push_orders;
use crate::places::push_places;
use crate::placing::{firm_among, placed_in};
use crate::windows::windows_among;
use pl_links::Placed;
use pl_lists::Items;
use pl_semantics::PlanState;
use pl_stn::{Edge, Net};
use pl_times::{Bounds, Timing, bounds_of};
use std::alloc::{AllocError, Global};

/// The edges of the network, in their order.
fn edges_of_plan(
    alloc: Global,
    s: &PlanState,
    placed: &[Placed],
    firm: &[Placed],
) -> Result<Vec<Edge>, AllocError>
    requires whole { IsWhole s.now }
    requires placed { placed.now ≡ placed_in s.now }
    requires firm { firm.now ≡ firm_in s.now }
    requires few { length firm.now ≤ 10000 }
    ensures { IfOk result (λ edges. edges.items ≡ edges_of_plan s.now) }
{
    let mut edges = Vec::new(alloc);
    push_origins(&mut edges, 2 * firm.len() as u32)?;
    push_durations(&mut edges, firm)?;
    push_places(s, &mut edges, firm)?;
    push_orders(s, &mut edges, firm, placed)?;
    push_links(s, &mut edges, firm)?;
    Ok(edges)
}

/// The times of the plan itself, which are a guess at a solution.
fn times_of_plan(alloc: Global, firm: &[Placed]) -> Result<Vec<i64>, AllocError> {
    let mut times = Vec::new(alloc);
    times.push(0)?;
    for p in firm {
        times.push(i64::from(p.start))?;
        times.push(i64::from(p.end.unwrap_or(0)))?;
    }
    Ok(times)
}

fn flex_between(
    alloc: Global,
    s: &PlanState,
    firm: &[Placed],
    net: Net,
    early: Timing,
    late: Timing,
) -> Result<Flex, AllocError>
    requires whole { IsWhole s.now }
    requires firm { firm.now ≡ firm_in s.now }
    requires few_firm { length firm.now ≤ 10000 }
    requires net { net ≡ flex_net s.now }
    requires few { HasFewEdges (flex_net s.now) }
    requires early { IsEarly (flex_net s.now) early }
    requires late { IsLate (flex_net s.now) late }
    ensures { IfOk result (AreWindowsOf s.now) }
{
    let windows = windows_among(
        alloc,
        s,
        firm,
        early.times.as_slice(),
        late.times.as_slice(),
    )?;
    Ok(Flex {
        net,
        windows: Items::from_vec(windows),
        early,
        late,
    })
}

#[tactic(auto, using(crate::proofs::Shapes::well_formed, crate::proofs::Ceilings::above_all, crate::proofs::Shapes::points_of_net))]
fn flex_of(alloc: Global, s: &PlanState, firm: &[Placed], net: Net) -> Result<Flexed, AllocError>
    requires whole { IsWhole s.now }
    requires firm { firm.now ≡ firm_in s.now }
    requires few_firm { length firm.now ≤ 10000 }
    requires net { net ≡ flex_net s.now }
    requires few { HasFewEdges (flex_net s.now) }
    ensures { IfOk result (IsAnswer s.now) }
{
    let times = times_of_plan(alloc, firm)?;
    match bounds_of(alloc, &net, times.as_slice(), 20000001)? {
        Bounds::Between { early, late } => Ok(Flexed::Windows(flex_between(
            alloc, s, firm, net, early, late,
        )?)),
        Bounds::Cycle(cycle) => Ok(Flexed::NoSchedule(cycle)),
    }
}

fn net_of(firm: &[Placed], edges: Vec<Edge>) -> Net
    requires { length firm.now ≤ 10000 }
    ensures { result ≡ record { points = 2 * length firm.now + 1; edges = edges.items } }
{
    Net {
        points: 2 * firm.len() as u32 + 1,
        edges: Items::from_vec(edges),
    }
}

#[tactic(auto, unfolding(crate::specs::FlexNets::flex_net))]
fn flex_over(
    alloc: Global,
    s: &PlanState,
    placed: &[Placed],
    firm: &[Placed],
) -> Result<Flexed, AllocError>
    requires whole { IsWhole s.now }
    requires placed { placed.now ≡ placed_in s.now }
    requires firm { firm.now ≡ firm_in s.now }
    requires few { length firm.now ≤ 10000 }
    ensures { IfOk result (IsAnswer s.now) }
{
    let edges = edges_of_plan(alloc, s, placed, firm)?;
    if edges.len() > 1_000_000 {
        return Ok(Flexed::TooMany(edges.len() as u64));
    }
    flex_of(alloc, s, firm, net_of(firm, edges))
}

#[tactic(auto, using(crate::proofs::Extents::few_firm))]
/// How far each firm activity of the plan that is not committed can move when the others move with it.
pub fn flex_windows(alloc: Global, s: &PlanState) -> Result<Flexed, AllocError>
    requires { IsWhole s.now }
    ensures { IfOk result (IsAnswer s.now) }
{
    let placed = placed_in(alloc, s)?;
    let firm = firm_among(alloc, placed.as_slice())?;
    flex_over(alloc, s, placed.as_slice(), firm.as_slice())
}

//! That no point lies before the origin, and that each activity lasts as long as it does.
ghost use Rattle.std.specs.Prelude.{◌≡◌, ◌≤◌, ◌<◌, ◌*◌, ◌++◌, ◌≤ℤ◌, pos, negsuc, length, OnOk};
ghost use Rattle.std.specs.List.{flat_map};
ghost use Rattle.pl_stn.specs.Nets.{edges_to_origin};
ghost use Rattle.pl_semantics.specs.PlanStates.{numbered};
ghost use Rattle.pl_flex.specs.FlexNets.{duration_of, edges_of_duration};

use crate::edges::{point_at, push_between, push_edge};
use pl_links::Placed;
use pl_model::Point;
use pl_stn::Edge;
use std::alloc::AllocError;

pub fn push_origins(edges: &mut Vec<Edge>, points: u32) -> Result<(), AllocError>
    requires { points ≤ 20000 }
    ensures { OnOk result (edges.new.items ≡ edges.old.items ++ edges_to_origin points) }
{
    for earlier in 0..points {
        push_edge(edges, earlier + 1, 0, 0)?;
    }
    Ok(())
}

fn duration_of(p: &Placed) -> i64
    ensures value { result ≡ duration_of p.now }
    ensures small { (negsuc 4999999999 ≤ℤ result) × (result ≤ℤ pos 5000000000) }
{
    i64::from(p.end.unwrap_or(0)) - i64::from(p.start)
}

fn push_duration(edges: &mut Vec<Edge>, place: usize, p: &Placed) -> Result<(), AllocError>
    requires { place < 10000 }
    ensures { OnOk result (edges.new.items ≡ edges.old.items ++ edges_of_duration (place, p.now)) }
{
    let duration = duration_of(p);
    push_between(
        edges,
        point_at(place, Point::Start),
        point_at(place, Point::End),
        duration,
        duration,
    )
}

pub fn push_durations(edges: &mut Vec<Edge>, firm: &[Placed]) -> Result<(), AllocError>
    requires { length firm.now ≤ 10000 }
    ensures { OnOk result (edges.new.items ≡ edges.old.items ++ flat_map edges_of_duration (numbered 0 firm.now)) }
{
    for (place, p) in firm.iter().enumerate() {
        push_duration(edges, place, p)?;
    }
    Ok(())
}

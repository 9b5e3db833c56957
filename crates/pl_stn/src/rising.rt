ghost use Rattle.std.specs.Prelude.{◌≡◌, ◌<◌, length, IfOk, ◌-ℤ◌, ◌≤ℤ◌, pos, negsuc};
ghost use Rattle.pl_stn.specs.Nets.{IsWellFormed, Meets, edge_of, time_of};
ghost use Rattle.pl_stn.specs.Causes.{AreRising, Tightens};

use crate::net::{Edge, Net};
use crate::walking::{closed_walk, edge_at};
use std::alloc::{AllocError, Global};

/// What a step came to: nothing had to rise, times rose, or the edges of these numbers close a negative cycle.
#[derive(Drop)]
pub enum Step {
    Met,
    Raised,
    Closed(Vec<u32>),
}

fn time_at(times: &[i64], point: u32) -> i64
    requires { point < length times.now }
    ensures { result ≡ time_of times.now point }
{
    times[point as usize]
}

/// The least time that the edge allows the point where it starts.
fn asked_time(times: &[i64], edge: Edge) -> i64
    requires to { edge.to < length times.now }
    requires most { (negsuc 99999999 ≤ℤ edge.most) × (edge.most ≤ℤ pos 100000000) }
    requires time { (pos 0 ≤ℤ time_of times.now edge.to) × (time_of times.now edge.to ≤ℤ pos 2000100000000) }
    ensures { result ≡ time_of times.now edge.to -ℤ edge.most }
{
    time_at(times, edge.to) - edge.most
}

/// Raises the time of the point where the edge starts to what the edge asks of it.
pub fn tighten(
    alloc: Global,
    net: &Net,
    times: &mut [i64],
    causes: &mut [Option<u32>],
    number: u32,
) -> Result<Step, AllocError>
    requires net { IsWellFormed net.now }
    requires rising { AreRising net.now times.old causes.old }
    requires number { number < length net.now.edges }
    ensures { IfOk result (Tightens net.now times.old causes.old times.new causes.new (Meets times.old (edge_of net.now number))) }
{
    let edge = edge_at(net, number);
    let asked = asked_time(times, edge);
    if asked <= time_at(times, edge.from) {
        return Ok(Step::Met);
    }
    times[edge.from as usize] = asked;
    causes[edge.from as usize] = Some(number);
    match closed_walk(alloc, net, causes, edge.from)? {
        None => Ok(Step::Raised),
        Some(cycle) => Ok(Step::Closed(cycle)),
    }
}

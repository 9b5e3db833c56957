ghost use Rattle.std.specs.Prelude.{◌≡◌, ◌<◌, ◌≤◌, length, OnOk, ◌-ℤ◌, ◌≤ℤ◌, pos, negsuc, ◌+◌, ◌∷◌};
ghost use Rattle.std.specs.List.Sorted.{IsPermutation};
ghost use Rattle.std.specs.BinaryHeap.{heap_items, heap_len};
ghost use Rattle.pl_stn.specs.Nets.{edge_of, time_of};
ghost use Rattle.pl_times.specs.Times.{IsSmall};
ghost use Rattle.pl_times.specs.Settling.{AreRising, ArePoints, IsKnown, IsPlaced, Raises};

use crate::index::edge_at;
use crate::rising::Rising;
use pl_stn::{Edge, Net};
use std::alloc::AllocError;
use std::collections::BinaryHeap;

pub fn time_at(times: &[i64], point: u32) -> i64
    requires { point < length times.now }
    ensures { result ≡ time_of times.now point }
{
    times[point as usize]
}

/// The least time that the edge allows the point where it starts.
fn asked_time(times: &[i64], edge: Edge) -> i64
    requires to { edge.to < length times.now }
    requires most { (negsuc 99999999 ≤ℤ edge.most) × (edge.most ≤ℤ pos 100000000) }
    requires time { IsSmall (time_of times.now edge.to) }
    ensures { result ≡ time_of times.now edge.to -ℤ edge.most }
{
    time_at(times, edge.to) - edge.most
}

/// How far the time of a point is from the known one.
pub fn key_at(known: &[i64], times: &[i64], point: u32) -> i64
    requires known { point < length known.now }
    requires times { point < length times.now }
    requires known_small { IsSmall (time_of known.now point) }
    requires time_small { IsSmall (time_of times.now point) }
    ensures { result ≡ time_of times.now point -ℤ time_of known.now point }
{
    time_at(times, point) - time_at(known, point)
}

/// Puts a point among those to look at.
pub fn enqueue(queue: &mut BinaryHeap<(i64, u32)>, key: i64, point: u32) -> Result<(), AllocError>
    ensures moved { OnOk result (IsPermutation ((key, point) ∷ heap_items queue.old) (heap_items queue.new)) }
    ensures more { OnOk result (heap_len queue.new ≡ heap_len queue.old + 1) }
{
    queue.push((key, point))?;
    Ok(())
}

/// Gives a point its time and what caused it, and puts it among those to look at.
fn place(
    known: &[i64],
    rising: &mut Rising,
    point: u32,
    time: i64,
    cause: u32,
) -> Result<(), AllocError>
    requires known { point < length known.now }
    requires times { point < length rising.old.times.items }
    requires causes { point < length rising.old.causes.items }
    requires known_small { IsSmall (time_of known.now point) }
    requires time_small { IsSmall time }
    ensures { OnOk result (IsPlaced known.now rising.old rising.new point time cause) }
{
    let key = time - time_at(known, point);
    rising.times[point as usize] = time;
    rising.causes[point as usize] = Some(cause);
    enqueue(&mut rising.queue, key, point)?;
    Ok(())
}

/// Raises the time of the point where the edge starts to what the edge asks of it.
pub fn raise(net: &Net, known: &[i64], rising: &mut Rising, number: u32) -> Result<(), AllocError>
    requires known { IsKnown net.now known.now rising.old.floor }
    requires rising { AreRising net.now rising.old.floor rising.old.times.items rising.old.causes.items }
    requires points { ArePoints net.now (heap_items rising.old.queue) }
    requires number { number < length net.now.edges }
    ensures { OnOk result (Raises net.now known.now rising.old rising.new number) }
{
    let edge = edge_at(net, number);
    let asked = asked_time(rising.times.as_slice(), edge);
    if asked <= time_at(rising.times.as_slice(), edge.from) {
        return Ok(());
    }
    place(known, rising, edge.from, asked, number)?;
    Ok(())
}

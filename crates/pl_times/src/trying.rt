//! A quick look for a solution or a negative cycle. Nothing is promised of what is found: who asks looks whether it is one.
ghost use Rattle.pl_times.specs.Times.{IsJoined};

use crate::index::{Index, index_of};
use crate::rising::Rising;
use pl_stn::{Edge, Net};
use std::alloc::{AllocError, Global};
use std::collections::BinaryHeap;

/// Times that may be a solution, the numbers of edges that may be a negative cycle, or neither.
#[derive(Drop)]
pub enum Found {
    Times(Vec<i64>),
    Cycle(Vec<u32>),
    Nothing,
}

/// How many times as many points are looked at as there are.
const ROUNDS: u32 = 64;

fn edge(net: &Net, number: u32) -> Option<Edge> {
    net.edges.as_slice().get(number as usize).copied()
}

fn slot(slots: &[Option<u32>], at: u32) -> Option<u32> {
    slots.get(at as usize).copied().flatten()
}

fn time(times: &[i64], point: u32) -> i64 {
    times.get(point as usize).copied().unwrap_or(0)
}

/// How far the time of a point is from the guess.
fn distance(guess: &[i64], times: &[i64], point: u32) -> i64 {
    time(times, point).saturating_sub(time(guess, point))
}

/// Makes the edge the cause of the point where it starts, if it keeps the point from lying before the origin.
fn hold_at_origin(net: &Net, causes: &mut [Option<u32>], number: u32) {
    match edge(net, number) {
        Some(edge) if edge.from != 0 && edge.to == 0 && edge.most == 0 => {
            set_cause(causes, edge.from, number)
        }
        _ => {}
    }
}

fn set_cause(causes: &mut [Option<u32>], point: u32, number: u32) {
    if let Some(cause) = causes.get_mut(point as usize) {
        *cause = Some(number);
    }
}

fn set_time(times: &mut [i64], point: u32, time: i64) {
    if let Some(place) = times.get_mut(point as usize) {
        *place = time;
    }
}

/// All times at 0, held there by the edges to the origin, and each point to be looked at.
fn begin(alloc: Global, net: &Net, guess: &[i64]) -> Result<Rising, AllocError>
    requires { IsJoined net.now }
{
    let times: Vec<i64> = vec![in alloc; 0; net.points as usize]?;
    let mut causes: Vec<Option<u32>> = vec![in alloc; None; net.points as usize]?;
    for number in 0..net.edges.len() as u32 {
        hold_at_origin(net, causes.as_mut_slice(), number);
    }
    let mut queue: BinaryHeap<(i64, u32)> = BinaryHeap::new(alloc);
    for point in 0..net.points {
        queue.push((distance(guess, times.as_slice(), point), point))?;
    }
    Ok(Rising {
        floor: 0,
        times,
        causes,
        queue,
    })
}

/// Raises the time of the point where the edge starts, if the edge asks for more.
fn raise(net: &Net, guess: &[i64], rising: &mut Rising, number: u32) -> Result<(), AllocError> {
    let Some(edge) = edge(net, number) else {
        return Ok(());
    };
    let asked = time(rising.times.as_slice(), edge.to).saturating_sub(edge.most);
    if asked > time(rising.times.as_slice(), edge.from) {
        set_time(rising.times.as_mut_slice(), edge.from, asked);
        set_cause(rising.causes.as_mut_slice(), edge.from, number);
        let key = distance(guess, rising.times.as_slice(), edge.from);
        rising.queue.push((key, edge.from))?;
    }
    Ok(())
}

/// Looks at each edge that ends at the point.
fn scan(
    net: &Net,
    index: &Index,
    guess: &[i64],
    rising: &mut Rising,
    point: u32,
) -> Result<(), AllocError> {
    let mut cursor = slot(index.heads.as_slice(), point);
    for _ in 0..net.edges.len() {
        let Some(number) = cursor else {
            return Ok(());
        };
        raise(net, guess, rising, number)?;
        cursor = slot(index.nexts.as_slice(), number);
    }
    Ok(())
}

/// Looks at as many points as there are, or at all that wait; whether none waits then.
fn look(net: &Net, index: &Index, guess: &[i64], rising: &mut Rising) -> Result<bool, AllocError> {
    for _ in 0..net.points {
        let Some((key, point)) = rising.queue.pop() else {
            return Ok(true);
        };
        if key == distance(guess, rising.times.as_slice(), point) {
            scan(net, index, guess, rising, point)?;
        }
    }
    Ok(false)
}

/// Where the cause of a point's time ends.
fn beyond(net: &Net, causes: &[Option<u32>], point: u32) -> Option<u32> {
    let number = slot(causes, point)?;
    let edge = edge(net, number)?;
    Some(edge.to)
}

/// Follows the causes from a point and marks each that it passes, up to one that is marked; answers it if this walk has marked it.
fn repeat_from(net: &Net, causes: &[Option<u32>], marks: &mut [u32], start: u32) -> Option<u32> {
    let mut at = start;
    for _ in 0..net.points {
        let mark = marks.get_mut(at as usize)?;
        if *mark == start {
            return Some(at);
        }
        if *mark < net.points {
            return None;
        }
        *mark = start;
        at = beyond(net, causes, at)?;
    }
    None
}

/// A point to which the causes lead back, if there is one.
fn repeated(alloc: Global, net: &Net, causes: &[Option<u32>]) -> Result<Option<u32>, AllocError> {
    let mut marks: Vec<u32> = vec![in alloc; u32::MAX; causes.len()]?;
    for start in 0..net.points {
        if let Some(point) = repeat_from(net, causes, marks.as_mut_slice(), start) {
            return Ok(Some(point));
        }
    }
    Ok(None)
}

/// The numbers of the causes from a point back to it.
fn round(
    alloc: Global,
    net: &Net,
    causes: &[Option<u32>],
    start: u32,
) -> Result<Vec<u32>, AllocError> {
    let mut walk = Vec::new(alloc);
    let mut at = Some(start);
    for _ in 0..net.points {
        let Some(number) = at.and_then(|point| slot(causes, point)) else {
            return Ok(walk);
        };
        walk.push(number)?;
        at = edge(net, number).map(|edge| edge.to);
        if at == Some(start) {
            return Ok(walk);
        }
    }
    Ok(walk)
}

/// Raises times from 0 to what the edges ask, as Bellman and Ford have it, the points in the order of how far they are from the
/// guess; now and then looks whether the edges that raised each point last lead round.
pub fn look_quickly(alloc: Global, net: &Net, guess: &[i64]) -> Result<Found, AllocError>
    requires { IsJoined net.now }
{
    let index = index_of(alloc, net)?;
    let mut rising = begin(alloc, net, guess)?;
    for _ in 0..ROUNDS {
        if look(net, &index, guess, &mut rising)? {
            return Ok(Found::Times(rising.times));
        }
        if let Some(point) = repeated(alloc, net, rising.causes.as_slice())? {
            return Ok(Found::Cycle(round(alloc, net, rising.causes.as_slice(), point)?));
        }
    }
    Ok(Found::Nothing)
}

ghost use Rattle.std.specs.Prelude.{◌≡◌, ◌<◌, length, OnOk, IfOk, pos, replicate, slice_set};
ghost use Rattle.std.specs.BinaryHeap.{heap_items};
ghost use Rattle.pl_times.specs.Times.{AreSmall};
ghost use Rattle.pl_times.specs.Bounded.{IsEarly};
ghost use Rattle.pl_times.specs.Index.{IsIndex};
ghost use Rattle.pl_times.specs.Settling.{AreRising, ArePoints, AreSeen, IsKnown, HavePopped, Looks, Pops, Scans};

use crate::index::{Index, index_of, no_slots, slot_at};
use crate::raising::{enqueue, key_at, raise};
use crate::rising::Rising;
use crate::timing::Timing;
use pl_lists::Items;
use pl_stn::Net;
use std::alloc::{AllocError, Global};
use std::collections::BinaryHeap;

/// Looks at each edge that ends at the point.
fn scan(
    net: &Net,
    index: &Index,
    known: &[i64],
    rising: &mut Rising,
    point: u32,
) -> Result<(), AllocError>
    requires known { IsKnown net.now known.now rising.old.floor }
    requires index { IsIndex net.now index.now.heads.items index.now.nexts.items }
    requires rising { AreRising net.now rising.old.floor rising.old.times.items rising.old.causes.items }
    requires points { ArePoints net.now (heap_items rising.old.queue) }
    requires point { point < net.now.points }
    ensures { OnOk result (Scans net.now known.now rising.old rising.new point) }
{
    let mut cursor = slot_at(index.heads.as_slice(), point);
    'edges: while let Some(number) = cursor {
        raise(net, known, rising, number)?;
        cursor = slot_at(index.nexts.as_slice(), number);
    }
    Ok(())
}

fn first_times(alloc: Global, floor: i64, count: u32) -> Result<Vec<i64>, AllocError>
    requires { 0 < count }
    ensures { IfOk result (λ v. v.items ≡ slice_set (replicate count floor) 0 (pos 0)) }
{
    let mut times: Vec<i64> = vec![in alloc; floor; count as usize]?;
    times[0] = 0;
    Ok(times)
}

/// Times at the floor, and each point to be looked at.
fn begin(alloc: Global, net: &Net, known: &[i64], floor: i64) -> Result<Rising, AllocError>
    requires known { IsKnown net.now known.now floor }
    ensures { IfOk result (λ r. AreSeen net.now known.now r × (r.floor ≡ floor)) }
{
    let times = first_times(alloc, floor, net.points)?;
    let causes = no_slots(alloc, net.points)?;
    let mut queue: BinaryHeap<(i64, u32)> = BinaryHeap::new(alloc);
    for point in 0..net.points {
        let key = key_at(known, times.as_slice(), point);
        enqueue(&mut queue, key, point)?;
    }
    Ok(Rising {
        floor,
        times,
        causes,
        queue,
    })
}

/// Takes the entry with the greatest key out of the queue.
fn pop_entry(rising: &mut Rising) -> Option<(i64, u32)>
    ensures { Pops rising.old result rising.new }
{
    rising.queue.pop()
}

/// Looks at a point that was popped, unless its time has changed since it was put there.
fn look(
    net: &Net,
    index: &Index,
    known: &[i64],
    rising: &mut Rising,
    key: i64,
    point: u32,
) -> Result<(), AllocError>
    requires known { IsKnown net.now known.now rising.old.floor }
    requires index { IsIndex net.now index.now.heads.items index.now.nexts.items }
    requires popped { HavePopped net.now known.now rising.old key point }
    ensures { OnOk result (Looks net.now known.now rising.old rising.new) }
{
    if key == key_at(known, rising.times.as_slice(), point) {
        scan(net, index, known, rising, point)?;
        return Ok(());
    }
    Ok(())
}

/// The earliest times of a net of which a solution is known, and what holds each point there. The points are looked at in the
/// order of how far they are from the known times, so that each is looked at once; but nothing rests on the order.
pub fn earliest_times(
    alloc: Global,
    net: &Net,
    known: &[i64],
    floor: i64,
) -> Result<Timing, AllocError>
    requires { IsKnown net.now known.now floor }
    ensures early { IfOk result (IsEarly net.now) }
    ensures small { IfOk result (λ t. AreSmall t.times) }
{
    let index = index_of(alloc, net)?;
    let mut rising = begin(alloc, net, known, floor)?;
    'pops: while let Some((key, point)) = pop_entry(&mut rising) {
        look(net, &index, known, &mut rising, key, point)?;
    }
    Ok(Timing {
        times: Items::from_vec(rising.times),
        causes: Items::from_vec(rising.causes),
    })
}

ghost use Rattle.std.specs.Prelude.{◌≡◌, ◌+◌, ◌≤◌, ◌<◌, [], false, true, length, IfOk, vec_len};
ghost use Rattle.std.specs.List.{All};
ghost use Rattle.pl_turn.specs.Passes.{leads, made_by};
ghost use Rattle.lundocsef_bench.specs.Ready.{IsReady};

use anyhow::Result;
use pl_turn::{Logged, Pass, TurnLock};
use std::alloc::{AllocError, Global};
use std::rt::Clock;
use std::sync::{Mutex, Wait};
use std::thread;
use std::thread::Threads;
use std::time::{Duration, Instant};

#[derive(Drop)]
struct Notes {
    items: Vec<u64>,
}

impl Logged for Notes {
    type Item = u64;

    ghost entries = { λ notes. notes.items.items };

    fn logged(&self) -> u64 {
        self.items.len() as u64
    }
}

// The turns of one thread. It answers how many it made, fewer where memory is wanting.
fn take_turns<R: Wait>(rt: &R, lock: &TurnLock<Notes>, mut pass: Pass<Notes>, turns: u32) -> u32
    requires { IsReady lock.now pass }
{
    for turn in 0..turns {
        let mut notes = lock.enter(rt, &mut pass);
        let added = notes.items.push(u64::from(turn)).is_ok();
        lock.leave(&mut pass, notes);
        if !added {
            return turn;
        }
    }
    turns
}

// As many passes as asked, split off from the first.
fn split_off(
    alloc: Global,
    lock: &TurnLock<Notes>,
    first: &mut Pass<Notes>,
    count: usize,
) -> Result<Vec<Pass<Notes>>, AllocError>
    requires ready { IsReady lock.now first.old }
    requires first { (leads first.old ≡ true) × (made_by first.old ≡ 0) }
    requires few { count < 1000 }
    ensures ready { IsReady lock.now first.new }
    ensures passes { IfOk result (λ passes. All (IsReady lock.now) passes.items) }
{
    let mut passes = Vec::with_capacity(alloc, count)?;
    for _ in 0..count {
        passes.push(lock.split(alloc, first)?)?;
    }
    Ok(passes)
}

// How long the list under the turn lock is after the turns of so many threads.
fn under_turns<R: Threads + Wait + Sync>(
    rt: &R,
    alloc: Global,
    threads: usize,
    turns: u32,
) -> Result<u64, AllocError>
    requires { threads < 1000 }
{
    let notes = Notes {
        items: Vec::new(alloc),
    };
    let Ok((lock, mut first)) = TurnLock::new(alloc, notes) else {
        return Err(AllocError);
    };
    let passes = split_off(alloc, &lock, &mut first, threads)?;
    let shared = &lock;
    thread::map_vec(
        rt,
        passes,
        &|pass: Pass<Notes>| -> u32
            requires { IsReady shared.now pass }
        { take_turns(rt, shared, pass, turns) },
    )?;
    Ok(lock.entries(&mut first))
}

// The same list under a mutex.
fn push_all<R: Wait>(rt: &R, list: &Mutex<Vec<u64>>, turns: u32) -> u32 {
    for turn in 0..turns {
        if list.lock(rt).push(u64::from(turn)).is_err() {
            return turn;
        }
    }
    turns
}

fn under_mutex<R: Threads + Wait + Sync>(
    rt: &R,
    alloc: Global,
    threads: usize,
    turns: u32,
) -> Result<u64, AllocError> {
    let list = Mutex::new(Vec::new(alloc));
    let shared = &list;
    thread::map_indices(rt, alloc, threads, &|_| push_all(rt, shared, turns))?;
    Ok(list.into_inner().len() as u64)
}

// How many a second.
fn rate(count: u64, time: Duration) -> u128 {
    u128::from(count) * 1_000_000_000 / time.as_nanos().max(1)
}

/// Has 1, 2 and 4 threads make so many turns each, and says how long the lists are then and, if asked, how many turns a
/// second were made.
pub fn run<R: Print + Clock + Threads + Wait + Sync>(
    rt: &R,
    alloc: Global,
    turns: u32,
    is_timed: bool,
) -> Result<()> {
    for threads in [1, 2, 4] {
        let start = Instant::now(rt)?;
        let taken = under_turns(rt, alloc, threads, turns)?;
        let turn_time = start.elapsed(rt)?;
        let start = Instant::now(rt)?;
        let pushed = under_mutex(rt, alloc, threads, turns)?;
        let mutex_time = start.elapsed(rt)?;
        rt.println(format_args!(
            "threads {threads}: {taken} entries under the turn lock, {pushed} under a mutex"
        ))?;
        if is_timed {
            let (turn_rate, mutex_rate) = (rate(taken, turn_time), rate(pushed, mutex_time));
            rt.println(format_args!("    {turn_rate} and {mutex_rate} a second"))?;
        }
    }
    Ok(())
}

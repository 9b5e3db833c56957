//! What a gate is told of the entries of each worker.
use crate::asserting::holds;
use crate::pair::missions::{GOAL, IMAGE, LARGE, SMALL};
use crate::running::{NONE, count_newlines, does, joined};
use pl_turn::Gate;
use std::alloc::Global;
use std::process::Abort;
use std::sync::Wait;
use std::sync::atomic::{AtomicU64, Ordering};
use std::thread::Threads;

/// A set of numbers below 64 with one more number.
fn with(numbers: u64, number: u32) -> u64 {
    numbers | (1u64 << (number % 64))
}

/// What a gate was told of one worker's entries: how many, the last, and all as a set.
#[derive(Drop)]
struct Told {
    count: AtomicU64,
    last: AtomicU64,
    numbers: AtomicU64,
}

impl Told {
    fn new() -> Told {
        Told {
            count: AtomicU64::new(0),
            last: AtomicU64::new(0),
            numbers: AtomicU64::new(0),
        }
    }

    fn count(&self) -> u64 {
        self.count.load(Ordering::SeqCst)
    }

    fn numbers(&self) -> u64 {
        self.numbers.load(Ordering::SeqCst)
    }

    /// Takes the number of an entry, and answers whether it is greater than the last.
    fn take(&self, entry: u32) -> bool {
        let is_later = self.last.load(Ordering::SeqCst) < u64::from(entry);
        self.last.store(u64::from(entry), Ordering::SeqCst);
        self.count
            .store(self.count().wrapping_add(1), Ordering::SeqCst);
        self.numbers
            .store(with(self.numbers(), entry), Ordering::SeqCst);
        is_later
    }
}

/// Keeps what it is told, and whether anything of it was wrong.
#[derive(Drop)]
struct Keeping {
    executive: Told,
    planner: Told,
    wrong: AtomicU64,
}

impl Keeping {
    fn new() -> Keeping {
        Keeping {
            executive: Told::new(),
            planner: Told::new(),
            wrong: AtomicU64::new(0),
        }
    }

    fn told(&self, worker: u8) -> &Told {
        if worker == 0 {
            &self.executive
        } else {
            &self.planner
        }
    }

    fn is_right(&self) -> bool {
        self.wrong.load(Ordering::SeqCst) == 0
    }
}

impl Gate for Keeping {
    fn before<R: Wait>(&self, _rt: &R, worker: u8, acts: u64) {
        if self.told(worker).count() != acts {
            self.wrong.store(1, Ordering::SeqCst);
        }
    }

    fn after<R: Wait>(&self, _rt: &R, worker: u8, entry: u32) {
        if !self.told(worker).take(entry) {
            self.wrong.store(1, Ordering::SeqCst);
        }
    }
}

/// The numbers of the executive's entries of a journal and of the planner's.
fn entries_of(journal: &[u8]) -> (u64, u64) {
    let (mut executive, mut planner) = (0, 0);
    for line in std::str::from_utf8(journal).unwrap_or("").lines() {
        let (number, entry) = line.split_once(' ').unwrap_or((line, ""));
        let number = number.parse().unwrap_or(0);
        let (event, _) = entry.split_once(' ').unwrap_or((entry, ""));
        match event {
            "commit" | "dispatch" | "close" => executive = with(executive, number),
            "fix" | "rest" => planner = with(planner, number),
            _ => {}
        }
    }
    (executive, planner)
}

/// Asserts that a gate is told each entry of each worker, and how many the worker has made.
fn assert_told<R: Abort + Threads + Wait + Sync>(
    rt: &R,
    alloc: Global,
    model: &str,
    messages: &str,
) {
    let gate = Keeping::new();
    let input = joined(rt, alloc, model, messages.as_bytes());
    let (status, out) = does(rt, alloc, "run pair 8 7", &input, NONE, &gate);
    holds(rt, messages, status == 0 && gate.is_right());
    holds(rt, "few entries", count_newlines(out.bytes()) <= 64);
    let told = (gate.executive.numbers(), gate.planner.numbers());
    holds(rt, messages, told == entries_of(out.bytes()));
}

#[test]
fn gates_are_told_of_each_entry(rt: HostRuntime) {
    assert_told(&rt, rt.alloc(), SMALL, GOAL);
    assert_told(&rt, rt.alloc(), LARGE, IMAGE);
}

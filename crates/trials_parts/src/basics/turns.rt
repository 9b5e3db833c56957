ghost use Rattle.std.specs.Prelude.{◌≡◌, ◌<◌, [], false, true};
ghost use Rattle.pl_turn.specs.Passes.{IsPassOf, in_turn, crew_of, leads};

use crate::asserting::holds;
use pl_turn::{Logged, Pass, TurnLock};
use std::alloc::Global;
use std::process::Abort;
use std::sync::Wait;
use std::thread::{Threads, join};

/// A note says who made it, and as the how-manyeth of its own.
#[derive(Clone, Copy, PartialEq, Eq, Drop)]
struct Note {
    worker: u8,
    number: u32,
}

#[derive(Drop)]
struct Notes {
    items: Vec<Note>,
}

impl Logged for Notes {
    type Item = Note;

    ghost entries = { λ notes. notes.items.items };

    fn logged(&self) -> u64 {
        self.items.len() as u64
    }
}

// Adds a note in one turn.
fn add<R: Abort + Wait>(rt: &R, lock: &TurnLock<Notes>, pass: &mut Pass<Notes>, note: Note)
    requires own { IsPassOf lock.now pass.old }
    requires outside { in_turn pass.old ≡ false }
    ensures own { IsPassOf lock.now pass.new }
    ensures outside { in_turn pass.new ≡ false }
    ensures crew { crew_of pass.new ≡ crew_of pass.old }
{
    let mut notes = lock.enter(rt, pass);
    notes.items.push(note).expect(rt, "memory");
    lock.leave(pass, notes);
}

fn open(rt: &impl Abort, alloc: Global) -> (TurnLock<Notes>, Pass<Notes>)
    ensures own { IsPassOf result.0 result.1 }
    ensures outside { in_turn result.1 ≡ false }
    ensures first { crew_of result.1 ≡ record { leads = true; opening = 0; made = 0; joined = [] } }
{
    let items = Vec::new(alloc);
    match TurnLock::new(alloc, Notes { items }) {
        Ok(made) => made,
        Err(_) => panic!(rt; "memory"),
    }
}

const TURNS: u32 = 10_000;

// As many turns as asked, a note in each.
fn work<R: Abort + Wait>(
    rt: &R,
    lock: &TurnLock<Notes>,
    mut pass: Pass<Notes>,
    worker: u8,
) -> Pass<Notes>
    requires own { IsPassOf lock.now pass }
    requires outside { in_turn pass ≡ false }
    ensures own { IsPassOf lock.now result }
    ensures outside { in_turn result ≡ false }
    ensures crew { crew_of result ≡ crew_of pass }
{
    for number in 0..TURNS {
        add(rt, lock, &mut pass, Note { worker, number });
    }
    pass
}

// Two workers in threads.
fn two_workers<R: Abort + Threads + Wait + Sync>(
    rt: &R,
    lock: &TurnLock<Notes>,
    one: Pass<Notes>,
    two: Pass<Notes>,
    worker: u8,
) -> (Pass<Notes>, Pass<Notes>)
    requires own { IsPassOf lock.now one × IsPassOf lock.now two }
    requires outside { (in_turn one ≡ false) × (in_turn two ≡ false) }
    requires few { worker < 100 }
    ensures own { IsPassOf lock.now result.0 × IsPassOf lock.now result.1 }
    ensures outside { (in_turn result.0 ≡ false) × (in_turn result.1 ≡ false) }
    ensures crew { (crew_of result.0 ≡ crew_of one) × (crew_of result.1 ≡ crew_of two) }
{
    let next = worker + 1;
    join(
        rt,
        move || -> Pass<Notes>
            requires { IsPassOf lock.now one × (in_turn one ≡ false) }
            ensures { IsPassOf lock.entry.now result × (in_turn result ≡ false) × (crew_of result ≡ crew_of one) }
        { work(rt, lock, one, worker) },
        move || -> Pass<Notes>
            requires { IsPassOf lock.now two × (in_turn two ≡ false) }
            ensures { IsPassOf lock.entry.now result × (in_turn result ≡ false) × (crew_of result ≡ crew_of two) }
        { work(rt, lock, two, next) },
    )
}

// Four workers in threads, and the list that they made.
fn four_workers<R: Abort + Threads + Wait + Sync>(rt: &R, alloc: Global) -> Notes {
    let (lock, mut first) = open(rt, alloc);
    let one = lock.split(alloc, &mut first).expect(rt, "memory");
    let two = lock.split(alloc, &mut first).expect(rt, "memory");
    let three = lock.split(alloc, &mut first).expect(rt, "memory");
    let four = lock.split(alloc, &mut first).expect(rt, "memory");
    let shared = &lock;
    let ((one, two), (three, four)) = join(
        rt,
        move || -> (Pass<Notes>, Pass<Notes>)
            requires own { IsPassOf shared.now one × IsPassOf shared.now two }
            requires outside { (in_turn one ≡ false) × (in_turn two ≡ false) }
            ensures own { IsPassOf shared.entry.now result.0 × IsPassOf shared.entry.now result.1 }
            ensures outside { (in_turn result.0 ≡ false) × (in_turn result.1 ≡ false) }
        { two_workers(rt, shared, one, two, 0) },
        move || -> (Pass<Notes>, Pass<Notes>)
            requires own { IsPassOf shared.now three × IsPassOf shared.now four }
            requires outside { (in_turn three ≡ false) × (in_turn four ≡ false) }
            ensures own { IsPassOf shared.entry.now result.0 × IsPassOf shared.entry.now result.1 }
            ensures outside { (in_turn result.0 ≡ false) × (in_turn result.1 ≡ false) }
        { two_workers(rt, shared, three, four, 2) },
    );
    lock.join(&mut first, one);
    lock.join(&mut first, two);
    lock.join(&mut first, three);
    lock.join(&mut first, four);
    lock.close(first)
}

// Asserts that this worker's notes stand in the order in which it made them, each once, and none is missing.
fn assert_in_order(rt: &impl Abort, notes: &[Note], worker: u8) {
    let mut next = 0u32;
    for note in notes {
        if note.worker == worker {
            holds(rt, "each in its order", note.number == next);
            next = next.wrapping_add(1);
        }
    }
    holds(rt, "none is missing", next == TURNS);
}

#[test]
fn four_threads_lose_no_entry(rt: HostRuntime) {
    let notes = four_workers(&rt, rt.alloc());
    let count = notes.items.len();
    holds(&rt, "all notes", count == 4 * TURNS as usize);
    for worker in 0..4 {
        assert_in_order(&rt, &notes.items, worker);
    }
}

//! A pair whose log is full.
ghost use Rattle.std.specs.Prelude.{◌≤◌};

use crate::asserting::holds;
use crate::journals::verdicts::verdict_on;
use crate::worked::shared_model;
use pl_facts::Options;
use pl_input::Halt;
use pl_io::{LineReader, MemSink, MemSource};
use pl_machine::Machine;
use pl_pair::run_pair;
use pl_replay::Verdict;
use pl_turn::NoGate;
use std::alloc::Global;
use std::process::Abort;
use std::sync::Wait;
use std::thread::Threads;

/// How a pair ends over the worked messages, with room for so many entries.
fn ended<R: Abort + Threads + Wait + Sync>(
    rt: &R,
    alloc: Global,
    entries: u32,
    sink: &mut MemSink,
) -> Result<(), Halt>
    requires some { 1 ≤ entries }
    requires bounded { entries ≤ 250000 }
{
    let options = Options {
        turns: 8,
        live: 10000,
        goals: 20000,
        entries,
    };
    let machine = Machine::fresh(alloc, shared_model(rt, alloc), options).expect(rt, "memory");
    let mut lines = LineReader::new(alloc, 4096, 10_000).expect(rt, "memory");
    let messages = b"goal 1 obs 10 20 must\ntick 10\nend\n";
    let mut source = MemSource::new(alloc, messages.as_slice(), &[]).expect(rt, "memory");
    run_pair(
        rt,
        alloc,
        machine,
        7,
        &NoGate,
        &mut lines,
        &mut source,
        sink,
    )
}

/// Whether a journal is legal, has so many entries, and has not ended.
fn is_unfinished(verdict: &Verdict, wanted: u32) -> bool {
    match verdict {
        Verdict::Legal { entries, done } => *entries == wanted && !*done,
        _ => false,
    }
}

/// Asserts that a pair stops at a full log, and that all of its entries are written.
fn assert_full<R: Abort + Threads + Wait + Sync>(rt: &R, alloc: Global, entries: u32)
    requires some { 1 ≤ entries }
    requires bounded { entries ≤ 250000 }
{
    let mut sink = MemSink::new(alloc, 20_000, &[]).expect(rt, "memory");
    let ended = ended(rt, alloc, entries, &mut sink);
    holds(rt, "a full log", matches!(ended, Err(Halt::Full)));
    let verdict = verdict_on(rt, alloc, sink.bytes());
    holds(rt, "its entries", is_unfinished(&verdict, entries));
}

/// Twelve entries are due at least.
#[test]
fn stops_at_a_full_log(rt: HostRuntime) {
    for entries in 1..12 {
        assert_full(&rt, rt.alloc(), entries);
    }
}

//! How far a commit may go, and the copy of an entry.
use crate::asserting::holds;
use crate::reading::{model, number, word};
use pl_conflict::{Code, Conflict};
use pl_entry::{Entry, Event, Reply, best, target};
use pl_lists::{Copied, Items};
use std::alloc::{AllocError, Global};
use std::process::Abort;

const MODEL: &str = "horizon 100 lead 30 kind a { duration 5 }";

fn conflict(from: u32) -> Conflict {
    Conflict {
        from,
        code: Code::Late,
        subject: 1,
        detail: 0,
        a: 0,
        b: 0,
    }
}

/// Moments, whether the planner is halted, where the first conflict is, and how far to commit.
const FURTHEST: &str = "0 runs none 30
0 runs 20 20
0 runs 60 30
80 runs none 100
0 halted none 1
0 halted 20 1
7 halted 5 5
99 halted none 100
100 halted none 100";

#[test]
fn how_far_to_commit(rt: HostRuntime) {
    let model = model(&rt, rt.alloc(), MODEL);
    for row in FURTHEST.lines() {
        let mut rest = row;
        let now = number(&mut rest);
        let halted = word(&mut rest) == "halted";
        let first = word(&mut rest).parse().ok().map(conflict);
        holds(
            &rt,
            row,
            best(&model, now, halted, first) == number(&mut rest),
        );
    }
    holds(&rt, "the target at 69", target(&model, 69, false) == 99);
    holds(&rt, "the target at 100", target(&model, 100, false) == 100);
    holds(
        &rt,
        "the target of a halt at 69",
        target(&model, 69, true) == 70,
    );
}

/// A command with two values.
fn sent(rt: &impl Abort, alloc: Global) -> Entry {
    let mut values = Items::new(alloc);
    values.push(Some(7)).expect(rt, "memory");
    values.push(None).expect(rt, "memory");
    Entry {
        event: Event::Dispatch,
        reply: Reply::Sent {
            id: 3,
            kind: 0,
            start: 10,
            values,
        },
    }
}

#[test]
fn entries_are_copied(rt: HostRuntime) {
    let alloc = rt.alloc();
    let copy = sent(&rt, alloc).copy(alloc).expect(&rt, "memory");
    let Entry { event, reply } = &copy;
    let text = format!(in alloc; "{event:?} {reply:?}").expect(&rt, "memory");
    let wanted =
        "Dispatch Sent { id: 3, kind: 0, start: 10, values: Items { items: [Some(7), None] } }";
    holds(&rt, "the copy", text.as_str() == wanted);
}

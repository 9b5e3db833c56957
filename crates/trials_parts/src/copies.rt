//! Copies of small values.
use crate::asserting::{holds, is_copied};
use pl_capacity::Use;
use pl_facts::Options;
use pl_level::Effect;
use pl_links::Placed;
use pl_plan::RepairMove;
use pl_state::{BadSet, BrokenMust, Must, Setting};

const USE: Use = Use {
    from: 1,
    to: 2,
    amount: 3,
};

const EFFECT: Effect = Effect { at: 3, delta: -4 };

const SET: Setting = Setting {
    at: 1,
    id: 2,
    index: 3,
    state: 0,
};

const MUST: Must = Must {
    from: 1,
    to: 2,
    id: 2,
    index: 3,
    state: 0,
};

const BAD: BadSet = BadSet {
    at: 1,
    id: 2,
    index: 0,
};

const BROKEN: BrokenMust = BrokenMust {
    id: 2,
    index: 0,
    from: 3,
    to: 40,
};

const OPTIONS: Options = Options {
    turns: 5,
    live: 10,
    goals: 2,
    entries: 40,
};

const SHIFT: RepairMove = RepairMove::Shift { id: 2, start: 45 };

const SCAN: Placed = Placed {
    id: 1,
    kind: 1,
    start: 10,
    end: Some(20),
    parent: None,
    detail: Some(0),
};

#[test]
fn small_values_are_copied(rt: HostRuntime) {
    let alloc = rt.alloc();
    holds(&rt, "a truth value", is_copied(alloc, &true));
    holds(&rt, "a number", is_copied(alloc, &5u64));
    holds(&rt, "a use", is_copied(alloc, &USE));
    holds(&rt, "an effect", is_copied(alloc, &EFFECT));
    holds(&rt, "a set", is_copied(alloc, &SET));
    holds(&rt, "a must", is_copied(alloc, &MUST));
    holds(&rt, "a bad step", is_copied(alloc, &BAD));
    holds(&rt, "a broken must", is_copied(alloc, &BROKEN));
    holds(&rt, "options", is_copied(alloc, &OPTIONS));
    holds(&rt, "a move", is_copied(alloc, &SHIFT));
    holds(&rt, "an item", is_copied(alloc, &SCAN));
}

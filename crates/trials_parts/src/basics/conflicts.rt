use crate::asserting::holds;
use pl_conflict::{Code, Conflict, ConflictSet};
use std::alloc::Global;
use std::process::Abort;

fn conflict(from: u32, code: Code, subject: u32) -> Conflict {
    Conflict {
        from,
        code,
        subject,
        detail: 0,
        a: 0,
        b: 0,
    }
}

/// An early conflict, e, and two of a later moment: an open goal, o, and one that is late, l.
fn named(letter: u8) -> Conflict {
    match letter {
        b'e' => conflict(3, Code::BadStep, 4),
        b'o' => conflict(20, Code::OpenGoal, 9),
        _ => conflict(20, Code::Late, 1),
    }
}

fn list(rt: &impl Abort, alloc: Global, letters: &str) -> Vec<Conflict> {
    let mut all = Vec::new(alloc);
    for letter in letters.as_bytes() {
        all.push(named(*letter)).expect(rt, "memory");
    }
    all
}

/// The conflicts that a walk over the set shows.
fn walked(rt: &impl Abort, alloc: Global, set: &ConflictSet) -> Vec<Conflict> {
    let mut all = Vec::new(alloc);
    for conflict in set.iter() {
        all.push(*conflict).expect(rt, "memory");
    }
    all
}

/// Asserts that the set has these, in this order.
fn assert_has(rt: &impl Abort, alloc: Global, set: &ConflictSet, letters: &str) {
    let wanted = list(rt, alloc, letters);
    let listed = set.list(alloc).expect(rt, "memory");
    let walked = walked(rt, alloc, set);
    holds(rt, letters, listed.as_slice() == wanted.as_slice());
    holds(rt, letters, walked.as_slice() == wanted.as_slice());
    holds(rt, letters, set.first() == wanted.first().copied());
    holds(rt, letters, set.len() as usize == wanted.len());
    holds(rt, letters, set.is_empty() == wanted.is_empty());
}

/// Puts one in or takes one out, and answers whether it was new or was there.
fn changed(rt: &impl Abort, set: &mut ConflictSet, step: u8, letter: u8) -> bool {
    match step {
        b'+' => set.insert(named(letter)).expect(rt, "memory"),
        _ => set.remove(&named(letter)),
    }
}

/// What is put in or taken out, whether that changes the set, and what it has then.
const STEPS: &str = "+l 1 l
+o 1 ol
+e 1 eol
+o 0 eol
-e 1 ol
-e 0 ol";

#[test]
fn a_set_is_its_sorted_list(rt: HostRuntime) {
    let mut set = ConflictSet::new(rt.alloc());
    assert_has(&rt, rt.alloc(), &set, "");
    for row in STEPS.lines() {
        let (step, rest) = row.split_once(' ').unwrap_or((row, ""));
        let (changes, wanted) = rest.split_once(' ').unwrap_or((rest, ""));
        match step.as_bytes() {
            [step, letter] => {
                let changed = changed(&rt, &mut set, *step, *letter);
                holds(&rt, row, changed == (changes == "1"));
            }
            _ => panic!(rt; "no step: {row}"),
        }
        assert_has(&rt, rt.alloc(), &set, wanted);
    }
    holds(&rt, "the late one", set.has(&named(b'l')));
    holds(&rt, "no early one", !set.has(&named(b'e')));
}

/// What goes, what comes, and what the set has then. What is not there may go, what is there may come, and what goes and comes
/// is there.
const EXCHANGES: &str = "o/lel/el
el/ol/ol
olo//";

#[test]
fn a_set_is_exchanged(rt: HostRuntime) {
    let alloc = rt.alloc();
    let mut set = ConflictSet::new(alloc);
    for row in EXCHANGES.lines() {
        let (went, rest) = row.split_once('/').unwrap_or((row, ""));
        let (came, wanted) = rest.split_once('/').unwrap_or((rest, ""));
        let went = list(&rt, alloc, went);
        let came = list(&rt, alloc, came);
        set.exchange(&went, &came).expect(&rt, "memory");
        assert_has(&rt, alloc, &set, wanted);
    }
}

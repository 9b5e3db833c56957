use crate::asserting::holds;
use pl_lists::{Boxed, Copied, Items};
use std::alloc::Global;
use std::process::Abort;

fn bytes(rt: &impl Abort, alloc: Global, text: &[u8]) -> Items<u8> {
    let mut all = Items::new(alloc);
    for byte in text {
        all.push(*byte).expect(rt, "memory");
    }
    all
}

#[test]
fn a_list_and_its_copy(rt: HostRuntime) {
    let alloc = rt.alloc();
    let mut name = bytes(&rt, alloc, b"cam");
    let copy = name.copy(alloc).expect(&rt, "memory");
    let last = name.pop();
    holds(&rt, "the last", last == Some(b'm'));
    holds(&rt, "the others", name.as_slice() == b"ca".as_slice());
    holds(&rt, "the copy", copy.as_slice() == b"cam".as_slice());
    holds(&rt, "its length", copy.len() == 3);
    holds(&rt, "it is not empty", !copy.is_empty());
    let others = name.into_vec();
    holds(&rt, "as a vector", others.as_slice() == b"ca".as_slice());
}

/// A number, and another or none.
type Pair = (u32, Option<i64>);

fn pairs(rt: &impl Abort, alloc: Global) -> Items<Pair> {
    let mut pairs: Items<Pair> = Items::new(alloc);
    pairs.push((7, Some(-3))).expect(rt, "memory");
    pairs.push((8, None)).expect(rt, "memory");
    pairs
}

#[test]
fn a_boxed_list(rt: HostRuntime) {
    let alloc = rt.alloc();
    let boxed = Boxed::new(alloc, pairs(&rt, alloc)).expect(&rt, "memory");
    let again = boxed.copy(alloc).expect(&rt, "memory");
    let text = format!(in alloc; "{:?}", again.get().as_slice()).expect(&rt, "memory");
    let is = text.as_str() == "[(7, Some(-3)), (8, None)]";
    holds(&rt, "the pairs", is);
    holds(&rt, "two", again.into_inner().len() == 2);
}

//! Texts that are read and written again.
use crate::asserting::holds;
use pl_check::check;
use pl_lists::Copied;
use pl_model::Model;
use pl_syntax::{read_model, write_model};
use std::alloc::Global;
use std::process::Abort;

/// The canonical text of what the text says.
fn rewritten(rt: &impl Abort, alloc: Global, text: &str) -> Vec<u8> {
    let ast = read_model(alloc, text.as_bytes()).expect(rt, "a text");
    let copy = ast.copy(alloc).expect(rt, "memory");
    write_model(alloc, &copy).expect(rt, "memory")
}

fn assert_rewritten(rt: &impl Abort, alloc: Global, text: &str, wanted: &str) {
    let written = rewritten(rt, alloc, text);
    holds(rt, text, written.as_slice() == wanted.as_bytes());
}

const TEXT: &str = "horizon 100 lead 30 capacity cam 10 level bat 0 1000 500
state mode { off on } start off step off on step on off state lamp { a } start a any
kind shot { param n 1 9 param m 1 9 = n*2+1 param k 0 3 default 2 duration 4 use cam 6-n-1 raise bat min(n,3) at start
lower bat max(n, (m)) at end set mode on at start must mode on link start shot end -3 - 0 }
kind scan { duration 10 alternative { slot a shot slot b shot (n = 2, k = 1) order parent start a end 0 3 order a end b start -1 3 } }";

const WRITTEN: &str = "horizon 100
lead 30
capacity cam 10
level bat 0 1000 500
state mode { off on } start off step off on step on off
state lamp { a } start a any
kind shot {
param n 1 9
param m 1 9 = ( ( n * 2 ) + 1 )
param k 0 3 default 2
duration 4
use cam ( ( 6 - n ) - 1 )
raise bat min ( n , 3 ) at start
lower bat max ( n , m ) at end
set mode on at start
must mode on
link start shot end - 3 0
}
kind scan {
duration 10
alternative {
slot a shot
slot b shot ( n = 2 , k = 1 )
order parent start a end 0 3
order a end b start - 1 3
}
}
";

#[test]
fn writes_what_it_read(rt: HostRuntime) {
    let alloc = rt.alloc();
    let text = "horizon 0100 lead 30 # a comment\nkind obs { duration (5) }";
    let written = "horizon 100\nlead 30\nkind obs {\nduration 5\n}\n";
    assert_rewritten(&rt, alloc, text, written);
    assert_rewritten(&rt, alloc, TEXT, WRITTEN);
    assert_rewritten(&rt, alloc, WRITTEN, WRITTEN);
}

const SCAN: &str =
    "horizon 100 lead 30 kind shot { duration 5 } kind scan { duration 10 alternative { slot a shot slot b shot order a end b start 0 3 } }";

/// The model of the text above, by the grammar and the checks alone.
fn scan(rt: &impl Abort, alloc: Global) -> Model {
    let ast = read_model(alloc, SCAN.as_bytes()).expect(rt, "a text");
    check(alloc, &ast).expect(rt, "a model")
}

#[test]
fn offsets_are_the_least(rt: HostRuntime) {
    let model = scan(&rt, rt.alloc());
    let kinds = model.kinds.as_slice();
    holds(&rt, "two kinds", kinds.len() == 2);
    holds(&rt, "the duration", kinds[0].least_duration == 5);
    let alternatives = kinds[1].alternatives.as_slice();
    holds(&rt, "one alternative", alternatives.len() == 1);
    let offsets = alternatives[0].offsets.as_slice();
    holds(&rt, "the offsets", offsets == [0, 5].as_slice());
}

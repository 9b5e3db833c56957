//! Texts, each with the first fault that it is refused for.
use crate::asserting::holds;
use crate::reading::field;
use pl_check::{Accepted, accept, too_long};
use pl_syntax::read_model;
use std::alloc::{AllocError, Global};
use std::process::Abort;

/// Whether the text is refused for this fault, or is a model's where the fault is empty.
fn is_judged(alloc: Global, text: &[u8], fault: &str) -> Result<bool, AllocError> {
    match accept(alloc, text)? {
        Accepted::Model(_) => Ok(fault.is_empty()),
        Accepted::Refused(line) => {
            let wanted = format!(in alloc; "model: {fault}\n")?;
            Ok(line.as_slice() == wanted.as_bytes())
        }
    }
}

/// Whether the text has this fault of the grammar, or is read where the fault is empty.
fn is_read(alloc: Global, text: &[u8], fault: &str) -> Result<bool, AllocError> {
    match read_model(alloc, text) {
        Ok(_) => Ok(fault.is_empty()),
        Err(found) => Ok(found.to_string(alloc)?.as_str() == fault),
    }
}

/// Texts, each with its first fault of the grammar, if it has one.
const GRAMMAR: &str = "horizon 100 lead 30 kind obs { duration 5 }
horizon 100 lead 30 kind abcdefghijklmnopqrstuvwxyzabcdefg => bad name at 25
horizon 1000000000000000000 lead 1 => bad number at 8
$ => bad byte at 0
horizon 100 kind => unexpected at 12
 => unexpected at 0
horizon 100 # lead 3 => unexpected at 20
horizon lead $ => bad byte at 13
horizon 9 lead 3 kind kind { duration 5 } => unexpected at 22
horizon 9 lead 3 state s { a } start a any step a a => unexpected at 43";

/// Asserts that the grammar and the checks judge the text so.
fn assert_fault(rt: &impl Abort, alloc: Global, text: &str, fault: &str) {
    let is_read = is_read(alloc, text.as_bytes(), fault).expect(rt, "memory");
    holds(rt, text, is_read);
    assert_judged(rt, alloc, text, fault);
}

/// Asserts that the text is refused for this fault, or is a model's where the fault is empty.
pub(crate) fn assert_judged(rt: &impl Abort, alloc: Global, text: &str, fault: &str) {
    let is_judged = is_judged(alloc, text.as_bytes(), fault).expect(rt, "memory");
    holds(rt, text, is_judged);
}

#[test]
fn first_faults_of_the_grammar(rt: HostRuntime) {
    for row in GRAMMAR.lines() {
        let (text, fault) = row.split_once(" => ").unwrap_or((row, ""));
        assert_fault(&rt, rt.alloc(), text, fault);
    }
}

/// A kind whose duration is `front` so many times, `middle`, and `back` as often.
fn nested(
    alloc: Global,
    front: &str,
    middle: &str,
    back: &str,
    times: usize,
) -> Result<String, AllocError> {
    let front = front.repeat(alloc, times)?;
    let back = back.repeat(alloc, times)?;
    format!(in alloc; "horizon 100 lead 30 kind a {{ duration {front}{middle}{back} }}")
}

/// What stands in front, in the middle and behind, how often, and the fault, if there is one.
const DEPTHS: &str = "( | 5 | ) | 32
( | 5 | ) | 33 | too deep at 70
1+ | 1 |  | 31
1+ | 1 |  | 32 | too deep at 101
( | min(1, 2) | ) | 31
( | min(1, 2) | ) | 32 | too deep at 70";

#[test]
fn depths(rt: HostRuntime) {
    let alloc = rt.alloc();
    for row in DEPTHS.lines() {
        let mut rest = row;
        let (front, middle, back) = (field(&mut rest), field(&mut rest), field(&mut rest));
        let times = field(&mut rest).parse().unwrap_or(0);
        let text = nested(alloc, front, middle, back, times).expect(&rt, "memory");
        assert_fault(&rt, alloc, text.as_str(), rest);
    }
}

/// A model's text of 1,048,576 bytes, which is as long as it may be.
fn longest(alloc: Global) -> Result<String, AllocError> {
    let model = "horizon 100\nlead 30\nkind obs {\nduration 5\n}\n";
    let blanks = "\n".repeat(alloc, 1_048_576 - model.len())?;
    format!(in alloc; "{blanks}{model}")
}

#[test]
fn lengths(rt: HostRuntime) {
    let alloc = rt.alloc();
    let mut text = longest(alloc).expect(&rt, "memory");
    holds(&rt, "the longest", text.len() == 1_048_576);
    assert_fault(&rt, alloc, text.as_str(), "");
    text.push('\n').expect(&rt, "memory");
    assert_fault(&rt, alloc, text.as_str(), "too long");
}

#[test]
fn says_what_is_too_long(rt: HostRuntime) {
    match too_long(rt.alloc()).expect(&rt, "memory") {
        Accepted::Model(_) => panic!(rt; "no text is too long"),
        Accepted::Refused(line) => {
            let is = line.as_slice() == b"model: too long\n".as_slice();
            holds(&rt, "its line", is);
        }
    }
}

/// Texts that the grammar takes, each with its first failed check.
const CHECKS: &str = "horizon 1 lead 1 => out of range: horizon
horizon 100 lead 101 => out of range: lead
horizon 100 lead 30 kind a { duration 101 } => out of range: duration
horizon 100 lead 30 kind a { duration 2000000000 } => out of range: literal
horizon 100 lead 30 kind a { duration 5 } kind a { duration 5 } => name twice: a
horizon 100 lead 30 kind a { param n 1 9 duration 5 alternative { slot s b ( n = n ) } } kind b { param m 0 9 duration m } => unknown name: n
horizon 100 lead 30 kind a { duration 5 use cam 1 } => unknown name: cam
horizon 100 lead 30 kind a { param x 1 9 = y param y 1 9 = x duration 5 } => circular: kind a, parameter x
horizon 100 lead 30 kind a { duration 5 alternative { slot s a } } => recursive: kind a
horizon 100 lead 30 kind x { duration 5 } kind scan { duration 20 alternative { slot a x slot b x order a end b start 0 10 order b end a start 0 10 } } => no schedule: kind scan, alternative 0";

#[test]
fn first_failed_checks(rt: HostRuntime) {
    for row in CHECKS.lines() {
        let (text, fault) = row.split_once(" => ").unwrap_or((row, ""));
        assert_judged(&rt, rt.alloc(), text, fault);
    }
}

use crate::asserting::holds;
use pl_text::{TextFault, Word, is_name, push_number, tokens, word_of};
use std::alloc::{AllocError, Global};
use std::process::Abort;

/// The tokens of a text as a list is printed, or its first fault.
fn said(rt: &impl Abort, alloc: Global, text: &[u8]) -> Result<String, AllocError> {
    holds(rt, "a short text", text.len() <= 1_000_000);
    match tokens(alloc, text) {
        Ok(found) => format!(in alloc; "{:?}", found.as_slice()),
        Err(TextFault::Memory) => Err(AllocError),
        Err(fault) => fault.to_string(alloc),
    }
}

fn assert_said(rt: &impl Abort, alloc: Global, text: &[u8], wanted: &str) {
    let said = said(rt, alloc, text).expect(rt, "memory");
    holds(rt, wanted, said.as_str() == wanted);
}

const THREE: &str =
    "[Token { kind: Name, from: 0, to: 2 }, Token { kind: Symbol(61), from: 3, to: 4 }, Token { kind: Number(7), from: 5, to: 8 }]";

const FIVE: &str =
    "[Token { kind: Symbol(45), from: 0, to: 1 }, Token { kind: Number(5), from: 1, to: 2 }, Token { kind: Name, from: 2, to: 4 }, Token { kind: Symbol(123), from: 4, to: 5 }, Token { kind: Number(999999999999999999), from: 12, to: 30 }]";

#[test]
fn reads_tokens(rt: HostRuntime) {
    let alloc = rt.alloc();
    assert_said(&rt, alloc, b"a1 = 007", THREE);
    let text = b"-5x_{# $ 9\n\t999999999999999999#";
    assert_said(&rt, alloc, text.as_slice(), FIVE);
    assert_said(&rt, alloc, b" \r\n# only this", "[]");
}

/// Texts, each with its first fault.
const FAULTS: &str = "1234567890123456789 => bad number at 0
a $ 1234567890123456789 => bad byte at 2
0 abcdefghijklmnopqrstuvwxyz0123456 $ => bad name at 2";

/// Texts without a fault.
const SOUND: &str = "123456789012345678
abcdefghijklmnopqrstuvwxyz012345";

#[test]
fn first_faults(rt: HostRuntime) {
    let alloc = rt.alloc();
    for row in FAULTS.lines() {
        let (text, fault) = row.split_once(" => ").unwrap_or((row, ""));
        assert_said(&rt, alloc, text.as_bytes(), fault);
    }
    assert_said(&rt, alloc, b"# $\n_", "bad byte at 4");
    assert_said(&rt, alloc, b"a\x80", "bad byte at 1");
    for text in SOUND.lines() {
        holds(&rt, "a short text", text.len() <= 1_000_000);
        holds(&rt, text, tokens(alloc, text.as_bytes()).is_ok());
    }
}

/// Words, and whether each is a name.
const NAMES: &str = "cam yes
Level_2 yes
level no
begin no
goal yes
2x no
 no
abcdefghijklmnopqrstuvwxyz0123456 no";

#[test]
fn names(rt: HostRuntime) {
    for row in NAMES.lines() {
        let (text, wanted) = row.split_once(' ').unwrap_or((row, ""));
        holds(&rt, row, is_name(text.as_bytes()) == (wanted == "yes"));
    }
    holds(&rt, "a b", !is_name(b"a b"));
}

#[test]
fn words(rt: HostRuntime) {
    let found = word_of(b"alternative");
    holds(&rt, "a word", found == Some(Word::Alternative));
    holds(&rt, "no word", word_of(b"alternatives").is_none());
    holds(&rt, "its text", Word::Min.text() == "min");
}

#[test]
fn writes_numbers(rt: HostRuntime) {
    let mut out = Vec::new(rt.alloc());
    for number in [40, -7, 0] {
        push_number(&mut out, number).expect(&rt, "memory");
    }
    holds(&rt, "the text", out.as_slice() == b"40-70".as_slice());
}

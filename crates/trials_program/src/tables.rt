//! Tables of runs: what goes in, the status, and what comes out.
use crate::asserting::holds;
use crate::running::{Failing, does, sides};
use pl_turn::NoGate;
use std::alloc::Global;
use std::process::Abort;
use std::sync::Wait;
use std::thread::Threads;

/// What the runs of a table have in common.
#[derive(Clone, Copy)]
pub struct Runs<'a> {
    /// The words. Where there are none, each row begins with its own.
    pub words: &'a str,
    pub failing: Failing<'a>,
    /// What stands before the input of a row, and what a `^` in it stands for.
    pub input: (&'a str, &'a str),
    /// What is written before the text of a row, and what a `^` in it stands for.
    pub text: (&'a str, &'a str),
}

/// One run: its words, its input, its status, and what it writes.
#[derive(Drop)]
struct Case<'a> {
    words: &'a str,
    input: String,
    status: u8,
    text: String,
}

/// The same runs where these reads and writes fail.
pub fn failing<'a>(runs: Runs<'a>, failing: Failing<'a>) -> Runs<'a> {
    Runs { failing, ..runs }
}

/// Puts a piece behind the text as many times as is said, each time with its number in the place of a `#`.
fn push_often(alloc: Global, text: &mut String, piece: &str, times: usize) -> Option<()> {
    if !piece.contains('#') {
        let whole = piece.repeat(alloc, times).ok()?;
        return text.push_str(whole.as_str()).ok();
    }
    for number in 0..times {
        let digits = format!(in alloc; "{number}").ok()?;
        let next = piece.replace(alloc, "#", digits.as_str()).ok()?;
        text.push_str(next.as_str()).ok()?;
    }
    Some(())
}

/// Puts a piece behind the text: `32*(` is 32 brackets.
fn push_piece(alloc: Global, text: &mut String, piece: &str) -> Option<()> {
    let (times, repeated) = piece.split_once('*').unwrap_or(("", piece));
    match times.parse() {
        Ok(times) => push_often(alloc, text, repeated, times),
        Err(_) => text.push_str(piece).ok(),
    }
}

/// A text of pieces with a `~` between two. A `^` stands for another text, and a `;` for a newline.
fn text_of(alloc: Global, pieces: &str, other: &str) -> Option<String> {
    let mut text = String::new(alloc);
    for piece in pieces.split('~') {
        push_piece(alloc, &mut text, piece)?;
    }
    let whole = text.replace(alloc, "^", other).ok()?;
    whole.replace(alloc, ";", "\n").ok()
}

/// The run of a row: its words, where the table has none; its input; its status; and its text, in which a `$` stands for the input.
fn case_of<'a>(alloc: Global, runs: &Runs<'a>, row: &'a str) -> Option<Case<'a>> {
    let (words, rest) = if runs.words.is_empty() {
        sides(row)
    } else {
        (runs.words, row)
    };
    let (said, rest) = sides(rest);
    let (status, answered) = sides(rest);
    let input = text_of(alloc, said, runs.input.1)?;
    let answered = answered.replace(alloc, "$", said).ok()?;
    let text = text_of(alloc, answered.as_str(), runs.text.1)?;
    Some(Case {
        words,
        input: format!(in alloc; "{}{input}", runs.input.0).ok()?,
        status: status.parse().ok()?,
        text: format!(in alloc; "{}{text}", runs.text.0).ok()?,
    })
}

/// Asserts that a run ends with the status of its row and writes its text.
fn assert_row<R: Abort + Threads + Wait + Sync>(rt: &R, alloc: Global, runs: &Runs<'_>, row: &str) {
    let case = case_of(alloc, runs, row).expect(rt, row);
    let input = case.input.as_bytes();
    let (status, sink) = does(rt, alloc, case.words, input, runs.failing, &NoGate);
    let is_so = status == case.status && sink.bytes() == case.text.as_bytes();
    holds(rt, row, is_so);
}

/// Asserts each row of some tables. A row has its input, its status, and what is written, with a ` => ` between two.
pub fn assert_tables<R: Abort + Threads + Wait + Sync>(
    rt: &R,
    alloc: Global,
    tables: &[(Runs<'_>, &str)],
) {
    for (runs, table) in tables {
        for row in table.lines() {
            assert_row(rt, alloc, runs, row);
        }
    }
}

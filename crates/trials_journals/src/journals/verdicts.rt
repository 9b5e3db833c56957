//! Journals verified, each with its verdict.
use crate::asserting::holds;
use crate::rows::{lines, sides};
use crate::worked::{JOURNAL, shared_model};
use pl_io::{LineReader, MemSource};
use pl_replay::{Verdict, verify};
use std::alloc::Global;
use std::process::Abort;

/// The verdict on a journal.
pub fn verdict_on(rt: &impl Abort, alloc: Global, journal: &[u8]) -> Verdict {
    let model = shared_model(rt, alloc);
    let mut lines = LineReader::new(alloc, 4160, 1_073_741_824).expect(rt, "memory");
    let mut source = MemSource::new(alloc, journal, &[]).expect(rt, "memory");
    let (verdict, _) = verify(alloc, model, &mut lines, &mut source).expect(rt, "a verdict");
    verdict
}

/// Compares how the verdict on a journal begins, as it is printed.
fn judge(rt: &impl Abort, alloc: Global, journal: &[u8], wanted: &str) {
    let verdict = verdict_on(rt, alloc, journal);
    let text = format!(in alloc; "{verdict:?}").expect(rt, "memory");
    holds(rt, wanted, text.starts_with(wanted));
}

/// A journal with another text in place of one.
fn changed(rt: &impl Abort, alloc: Global, journal: &str, from: &str, to: &str) -> String {
    let (front, rest) = journal.split_once(from).unwrap_or(("no such text", ""));
    format!(in alloc; "{front}{to}{rest}").expect(rt, "memory")
}

/// Judges the worked journal with a change. A row has a text, what stands in its place, and the verdict; `;` is a newline.
fn judge_change(rt: &impl Abort, alloc: Global, row: &str) {
    let (from, rest) = sides(row);
    let (to, wanted) = sides(rest);
    let from = lines(rt, alloc, from);
    let to = lines(rt, alloc, to);
    let journal = changed(rt, alloc, JOURNAL, from.as_str(), to.as_str());
    judge(rt, alloc, journal.as_bytes(), wanted);
}

/// The first wrong entry is named, entries are judged by the plan, and lines are taken as they are written.
const CHANGES: &str = "turns 8 => turns 0 => NotALine(0)
entries 250000 => entries 3 => Full(3)
2 fix => 3 fix => NotALine(2)
open-goal 1 => open-goal 2 => OtherReply(2, Stale)
rest clear => rest spent => OtherReply(3, Rested(Clear))
commit 30 => commit 101 => OtherReply(4, CommitBeyond)
0 open => 0 open => Legal { entries: 12, done: true }
commit 30 => commit 31 => Legal { entries: 12, done: true }
commit 30 => commit 100 => OtherReply(9, CommitBehind)
8 dispatch 1 obs 10;9 commit 40 : ok;10 close;11 => 8 commit 40 : ok;9 close;10 => NotNow(9)
1 obs 10;9 => 1 obs 11;9 => OtherReply(8, Sent {
end : end => end : fin => OtherReply(11, BadLine)
3 rest => ; \t; # no entry;3 rest => Legal { entries: 12, done: true }
3 rest clear => 3 rest clear\r => NotALine(3)
3 rest clear => 3 rest clear # so far => NotALine(3)
1 in => 0 open turns 8 live 1 goals 1 entries 1;1 in => NotALine(1)
11 in end : end; => 11 in end : end => Legal { entries: 12, done: true }
11 in end : end; => 11 in e => NotALine(11)";

#[test]
fn judges_changed_journals(rt: HostRuntime) {
    for row in CHANGES.lines() {
        judge_change(&rt, rt.alloc(), row);
    }
}

/// Journals, each with its verdict; `;` is a newline.
const SHORT: &str = " => NotALine(0)
;# nothing; => NotALine(0)
0 open turns 8 live 1 goals 1 entries 2; => Legal { entries: 1, done: false }
0 open turns 8 live 1 goals 1 entries 2;1 in eof; => Legal { entries: 2, done: true }
0 open turns 8 live 1 goals 1 entries 2;1 in ok : tick 3;2 rest clear; => Full(2)
0 open turns 8 live 1 goals 1 entries 2;1 in eof;2 in eof; => NotNow(2)";

#[test]
fn judges_short_journals(rt: HostRuntime) {
    let alloc = rt.alloc();
    for row in SHORT.lines() {
        let (journal, wanted) = sides(row);
        let journal = lines(&rt, alloc, journal);
        judge(&rt, alloc, journal.as_bytes(), wanted);
    }
}

//! Lines of a journal that are read as entries, and lines that are refused.
ghost use Rattle.pl_model.specs.Checked.{IsChecked};

use crate::asserting::holds;
use crate::rows::sides;
use crate::worked::model;
use pl_entry::Entry;
use pl_journal::{EntryFault, has_line, read_entry, render};
use pl_model::Model;
use std::alloc::{AllocError, Global};
use std::process::Abort;

const MODEL: &str = "horizon 100 lead 30 kind obs { duration 5 }
kind image { param frames 0 9 duration 5 }
kind shot { param gain 0 9 param tilt 0 9 param level_2 0 9 duration 5 }";

/// Whether the line is read as an entry that has this line, and not another, and is printed as it.
fn comes_back(alloc: Global, model: &Model, line: &[u8]) -> Result<bool, AllocError>
    requires { IsChecked model.now }
{
    match read_entry(alloc, model, line) {
        Ok((number, entry)) => {
            let has = has_line(alloc, model, number, &entry, line)?;
            let has_other = has_line(alloc, model, number, &entry, b"12 rest stuck ")?;
            let mut printed = render(alloc, model, number, &entry)?;
            let newline = printed.pop();
            Ok(has && !has_other && newline == Some(b'\n') && printed.as_slice() == line)
        }
        Err(EntryFault::NotALine) => Ok(false),
        Err(EntryFault::Memory) => Err(AllocError),
    }
}

/// Whether the line is refused as that of no entry.
fn is_refused(alloc: Global, model: &Model, line: &[u8]) -> Result<bool, AllocError>
    requires { IsChecked model.now }
{
    match read_entry(alloc, model, line) {
        Ok(_) => Ok(false),
        Err(EntryFault::NotALine) => Ok(true),
        Err(EntryFault::Memory) => Err(AllocError),
    }
}

/// Lines, and what they say: the event and the reply.
const MEANT: &str =
    "0 open turns 8 live 10000 goals 20000 entries 250000 => Opened(Options { turns: 8, live: 10000, goals: 20000, entries: 250000 }) Done
1 in ok : a : b => Input(Some(Items { items: [97, 32, 58, 32, 98] })) Done
1 in eof => Input(None) Ended
5 in tick-back : a => Input(Some(Items { items: [97] })) TickBack
12 in duplicate-goal : a => Input(Some(Items { items: [97] })) DuplicateGoal
15 in too-late : a => Input(Some(Items { items: [97] })) TooLate
18 in bad-line : a => Input(Some(Items { items: [97] })) BadLine
3 in too-many-goals : a => Input(Some(Items { items: [97] })) TooManyGoals
48 in unknown-name : a => Input(Some(Items { items: [97] })) UnknownName
33 in range : a => Input(Some(Items { items: [97] })) Range
60 in tick-beyond : a => Input(Some(Items { items: [97] })) TickBeyond
61 in not-begun : a => Input(Some(Items { items: [97] })) NotBegun
62 in end-back : a => Input(Some(Items { items: [97] })) EndBack
11 in end : a => Input(Some(Items { items: [97] })) Ended
2 fix 20 open-goal 1 0 10 20 by add obs 10 goal 1 : ok => Fix(Conflict { from: 20, code: OpenGoal, subject: 1, detail: 0, a: 10, b: 20 }, Add { kind: 0, start: 10, goal: Some(1) }) Done
7 fix 10 late 1 2 3 4 by add shot 130 : ok => Fix(Conflict { from: 10, code: Late, subject: 1, detail: 2, a: 3, b: 4 }, Add { kind: 2, start: 130, goal: None }) Done
7 fix 10 late 1 2 3 4 by delete 5 : ok => Fix(Conflict { from: 10, code: Late, subject: 1, detail: 2, a: 3, b: 4 }, Delete { id: 5 }) Done
7 fix 10 late 1 2 3 4 by shift 5 11 : ok => Fix(Conflict { from: 10, code: Late, subject: 1, detail: 2, a: 3, b: 4 }, Shift { id: 5, start: 11 }) Done
7 fix 10 late 1 2 3 4 by detail 5 6 : ok => Fix(Conflict { from: 10, code: Late, subject: 1, detail: 2, a: 3, b: 4 }, Detail { id: 5, alternative: 6 }) Done
7 fix 10 late 1 2 3 4 by abstract 6 : ok => Fix(Conflict { from: 10, code: Late, subject: 1, detail: 2, a: 3, b: 4 }, Abstract { id: 6 }) Done
7 fix 10 late 1 2 3 4 by assign 5 255 1000000000 : ok => Fix(Conflict { from: 10, code: Late, subject: 1, detail: 2, a: 3, b: 4 }, Assign { id: 5, param: 255, value: 1000000000 }) Done
4 fix 92 late 1 2 3 4 by drop 2 : stale => Fix(Conflict { from: 92, code: Late, subject: 1, detail: 2, a: 3, b: 4 }, Drop { goal: 2 }) Stale
4 fix 92 late 1 2 3 4 by drop 2 : not-for => Fix(Conflict { from: 92, code: Late, subject: 1, detail: 2, a: 3, b: 4 }, Drop { goal: 2 }) NotFor
4 fix 92 late 1 2 3 4 by drop 2 : locked 7 => Fix(Conflict { from: 92, code: Late, subject: 1, detail: 2, a: 3, b: 4 }, Drop { goal: 2 }) Locked(7)
4 fix 92 late 1 2 3 4 by drop 2 : behind 7 => Fix(Conflict { from: 92, code: Late, subject: 1, detail: 2, a: 3, b: 4 }, Drop { goal: 2 }) Behind(7)
4 fix 92 late 1 2 3 4 by drop 2 : beyond 7 => Fix(Conflict { from: 92, code: Late, subject: 1, detail: 2, a: 3, b: 4 }, Drop { goal: 2 }) Beyond(7)
4 fix 92 late 1 2 3 4 by drop 2 : full => Fix(Conflict { from: 92, code: Late, subject: 1, detail: 2, a: 3, b: 4 }, Drop { goal: 2 }) Full
3 rest clear => Rest Rested(Clear)
3 rest spent => Rest Rested(Spent)
2 rest stuck => Rest Rested(Stuck)
4 commit 30 : ok => Commit(30) Done
49 commit 98 : behind => Commit(98) CommitBehind
5 commit 463 : beyond => Commit(463) CommitBeyond
3 commit 21 : held 20 open-goal 1 0 10 20 => Commit(21) Held(Conflict { from: 20, code: OpenGoal, subject: 1, detail: 0, a: 10, b: 20 })
3 commit 21 : held 20 off-goal 1 2 3 4 => Commit(21) Held(Conflict { from: 20, code: OffGoal, subject: 1, detail: 2, a: 3, b: 4 })
3 commit 21 : held 20 unset 1 2 3 4 => Commit(21) Held(Conflict { from: 20, code: Unset, subject: 1, detail: 2, a: 3, b: 4 })
3 commit 21 : held 20 bad-value 1 2 3 4 => Commit(21) Held(Conflict { from: 20, code: BadValue, subject: 1, detail: 2, a: 3, b: 4 })
3 commit 21 : held 20 undetailed 1 2 3 4 => Commit(21) Held(Conflict { from: 20, code: Undetailed, subject: 1, detail: 2, a: 3, b: 4 })
3 commit 21 : held 20 overrun 1 2 3 4 => Commit(21) Held(Conflict { from: 20, code: Overrun, subject: 1, detail: 2, a: 3, b: 4 })
3 commit 21 : held 20 temporal 1 2 3 4 => Commit(21) Held(Conflict { from: 20, code: Temporal, subject: 1, detail: 2, a: 3, b: 4 })
3 commit 21 : held 20 link 1 2 3 4 => Commit(21) Held(Conflict { from: 20, code: Linked, subject: 1, detail: 2, a: 3, b: 4 })
3 commit 21 : held 20 over 1 2 3 4 => Commit(21) Held(Conflict { from: 20, code: Over, subject: 1, detail: 2, a: 3, b: 4 })
3 commit 21 : held 20 low 1 2 3 4 => Commit(21) Held(Conflict { from: 20, code: Low, subject: 1, detail: 2, a: 3, b: 4 })
3 commit 21 : held 20 high 1 2 3 4 => Commit(21) Held(Conflict { from: 20, code: High, subject: 1, detail: 2, a: 3, b: 4 })
3 commit 21 : held 20 must 1 2 3 4 => Commit(21) Held(Conflict { from: 20, code: Must, subject: 1, detail: 2, a: 3, b: 4 })
3 commit 21 : held 20 bad-step 1 2 3 4 => Commit(21) Held(Conflict { from: 20, code: BadStep, subject: 1, detail: 2, a: 3, b: 4 })
8 dispatch 1 obs 10 => Dispatch Sent { id: 1, kind: 0, start: 10, values: Items { items: [] } }
21 dispatch 1 image 200 frames=8 => Dispatch Sent { id: 1, kind: 1, start: 200, values: Items { items: [Some(8)] } }
7 dispatch 3 shot 9 => Dispatch Sent { id: 3, kind: 2, start: 9, values: Items { items: [None, None, None] } }
7 dispatch 3 shot 9 tilt=5 => Dispatch Sent { id: 3, kind: 2, start: 9, values: Items { items: [None, Some(5), None] } }
7 dispatch 3 shot 9 gain=1 tilt=2 level_2=1000000000 => Dispatch Sent { id: 3, kind: 2, start: 9, values: Items { items: [Some(1), Some(2), Some(1000000000)] } }
5 close => Close Done";

/// What a line says.
fn said(alloc: Global, model: &Model, line: &str) -> Result<String, AllocError>
    requires { IsChecked model.now }
{
    match read_entry(alloc, model, line.as_bytes()) {
        Ok((_, Entry { event, reply })) => format!(in alloc; "{event:?} {reply:?}"),
        Err(EntryFault::NotALine) => String::from_str(alloc, "no line"),
        Err(EntryFault::Memory) => Err(AllocError),
    }
}

fn assert_comes_back(rt: &impl Abort, alloc: Global, model: &Model, line: &str)
    requires { IsChecked model.now }
{
    let comes_back = comes_back(alloc, model, line.as_bytes()).expect(rt, "memory");
    holds(rt, line, comes_back);
}

/// Asserts what a line says, and that it comes back.
fn assert_said(rt: &impl Abort, alloc: Global, model: &Model, row: &str)
    requires { IsChecked model.now }
{
    let (line, wanted) = sides(row);
    assert_comes_back(rt, alloc, model, line);
    let said = said(alloc, model, line).expect(rt, "memory");
    holds(rt, row, said.as_str() == wanted);
}

const LINES: &str = "0 open turns 1 live 1 goals 1 entries 1
0 open turns 1000 live 10000 goals 20000 entries 250000
1 in ok : goal 1 obs 10 20 must
1 in ok : goal 1  obs : x
60 in tick-beyond : tick 999999999999999999
11 in end : no end
7 fix 10 late 1 0 0 0 by drop 1 : ok
4294967295 commit 4294967295 : ok";

/// Lines that end in a blank or a carriage return.
const SPARE: [&str; 4] = [
    "1 in ok : ",
    "5 in bad-line : ",
    "1 in ok : a\r",
    "1 in ok :  : ",
];

const WRONG: &str = "x
0 open turns 0 live 1 goals 1 entries 1
0 open turns 1001 live 1 goals 1 entries 1
0 open turns 1 live 10001 goals 1 entries 1
0 open turns 1 live 1 goals 20001 entries 1
0 open turns 1 live 1 goals 1 entries 250001
1 open turns 1 live 1 goals 1 entries 1
0 open live 1 turns 1 goals 1 entries 1
0 close
01 close
1  close
1 close x
1 closed
1 in ok :
1 in bad : x
1 in end: end
1 in ok: x
1 in ok  : x
1 in
1
-1 close
+1 close
 1 close
4294967296 close
99999999999999999999999999 close
1 rest
1 rest unclear
1 commit 5 ok
1 commit 5 : held
1 commit 4294967296 : ok
1 dispatch
7 dispatch 3 shot 9 tilt=5 gain=1
7 dispatch 3 shot 9 tilt=05
7 dispatch 3 shot 9 tilt=
7 dispatch 3 shot 9 tilt=1000000001
7 dispatch 3 shot 9 tilt=-1
7 dispatch 3 obs 9 tilt=5
7 dispatch 3 nokind 9
4 fix 92 late 2 0 92 92 by assign 3 256 1 : ok
4 fix 92 late 2 0 92 92 by assign 3 255 1000000001 : ok
4 fix 92 late 2 0 92 92 by add nokind 5 : ok
4 fix 92 late 2 0 92 92 by add obs 5 goal : ok
4 fix 92 late 2 0 92 92 by add obs 5 : locked
4 fix 92 late 2 0 92 by add obs 5 : ok
4 fix 92 later 2 0 92 92 by drop 2 : ok
4 fix 92 late 2 0 92 92 by drop 2 : clear";

/// Lines that are empty, or have a blank, a carriage return or a newline too many.
const UNCLEAN: [&str; 5] = [
    "",
    "1 close ",
    "1 in eof ",
    "1 rest clear\r",
    "1 in ok : a\nb",
];

fn assert_refused(rt: &impl Abort, alloc: Global, model: &Model, line: &str)
    requires { IsChecked model.now }
{
    let is_refused = is_refused(alloc, model, line.as_bytes()).expect(rt, "memory");
    holds(rt, line, is_refused);
}

/// A message of so many bytes, as an input that was accepted.
fn message_line(rt: &impl Abort, alloc: Global, bytes: usize) -> String {
    let message = "x".repeat(alloc, bytes).expect(rt, "memory");
    format!(in alloc; "1 in ok : {message}").expect(rt, "memory")
}

/// Asserts that lines are read back.
fn assert_read(rt: &impl Abort, alloc: Global, model: &Model)
    requires { IsChecked model.now }
{
    for row in MEANT.lines() {
        assert_said(rt, alloc, model, row);
    }
    for line in LINES.lines() {
        assert_comes_back(rt, alloc, model, line);
    }
    for line in SPARE {
        assert_comes_back(rt, alloc, model, line);
    }
    let longest = message_line(rt, alloc, 4096);
    assert_comes_back(rt, alloc, model, longest.as_str());
}

/// Asserts that other lines are refused.
fn assert_others(rt: &impl Abort, alloc: Global, model: &Model)
    requires { IsChecked model.now }
{
    for line in WRONG.lines() {
        assert_refused(rt, alloc, model, line);
    }
    for line in UNCLEAN {
        assert_refused(rt, alloc, model, line);
    }
    let longer = message_line(rt, alloc, 4097);
    assert_refused(rt, alloc, model, longer.as_str());
}

#[test]
fn reads_lines(rt: HostRuntime) {
    let model = model(&rt, rt.alloc(), MODEL);
    assert_read(&rt, rt.alloc(), &model);
    assert_others(&rt, rt.alloc(), &model);
}

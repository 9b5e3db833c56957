//! Scripts of calls of the machine, each with its reply.
ghost use Rattle.std.specs.Prelude.{◌≡◌, ◌==◌};
ghost use Rattle.std.specs.List.{list_any};
ghost use Rattle.pl_entry.specs.Bounds.{AreOptions};

use crate::asserting::holds;
use crate::board::reading::conflict;
use crate::machine::until_and_halt::{GOES_ON, HALTED, MEASURED};
use crate::reading::{model, number, word};
use pl_cand::is_stuck;
use pl_choose::Least;
use pl_entry::{Entry, Reply};
use pl_facts::Options;
use pl_input::is_begin_line;
use pl_machine::{Choice, Machine, Stop};
use pl_plan::RepairMove;
use std::alloc::{AllocError, Global};
use std::process::Abort;
use std::sync::Arc;

const MODEL: &str = "horizon 100 lead 30 kind obs { duration 5 }";

const BOUNDS: Options = Options {
    turns: 8,
    live: 10000,
    goals: 20000,
    entries: 250000,
};

fn fresh(rt: &impl Abort, alloc: Global, options: Options) -> Machine
    requires { AreOptions options }
{
    let model = Arc::new(alloc, model(rt, alloc, MODEL)).expect(rt, "memory");
    Machine::fresh(alloc, model, options).expect(rt, "memory")
}

fn has_newline(line: &[u8]) -> bool
    ensures { result ≡ list_any (λ byte. byte == 10) line.now }
{
    line.iter().any(|byte| *byte == b'\n')
}

fn tell(machine: &mut Machine, line: &[u8]) -> Option<Result<Reply, Stop>> {
    if line.len() <= 4096 && !has_newline(line) {
        Some(machine.input(Some(line)))
    } else {
        None
    }
}

/// Adds an activity of the model's kind for an open goal.
fn fix(machine: &mut Machine, line: &str, start: u32) -> Option<Result<Reply, Stop>> {
    if machine.model().kinds.len() > 0 {
        let conflict = conflict(line);
        let mv = RepairMove::Add {
            kind: 0,
            start,
            goal: Some(conflict.subject),
        };
        Some(machine.fix(&conflict, &mv))
    } else {
        None
    }
}

/// A call, with its number, or a message. There is no answer where it may not be made.
fn make(machine: &mut Machine, call: &str) -> Option<Result<Reply, Stop>> {
    let mut rest = call;
    match word(&mut rest) {
        "add-for-1" => fix(machine, "20 open-goal 1 0 10 20", number(&mut rest)),
        "add-for-2" => fix(machine, "50 open-goal 2 0 40 50", number(&mut rest)),
        "rest" => Some(machine.rest()),
        "commit" => Some(machine.commit(number(&mut rest))),
        "dispatch" => Some(machine.dispatch()),
        "close" => Some(machine.close()),
        "eof" => Some(machine.input(None)),
        _ => tell(machine, call.as_bytes()),
    }
}

/// What the executive chooses. There is no answer where memory was wanting.
fn choice(machine: &Machine) -> Option<Option<Choice>> {
    if machine.spoiled() {
        None
    } else {
        Some(machine.exec_choice())
    }
}

fn stuck(alloc: Global, machine: &Machine) -> Option<bool> {
    let board = machine.board();
    if board.spoiled() {
        None
    } else {
        is_stuck(alloc, board).ok()
    }
}

/// The places of the entries that send a command.
fn sent_at(alloc: Global, log: &[Entry]) -> Result<Vec<usize>, AllocError> {
    let mut places = Vec::new(alloc);
    for (place, entry) in log.iter().enumerate() {
        if matches!(&entry.reply, Reply::Sent { .. }) {
            places.push(place)?;
        }
    }
    Ok(places)
}

fn logged(alloc: Global, machine: &Machine) -> Result<String, AllocError> {
    let entries = machine.log().entries_from(alloc, 0)?;
    let sent = sent_at(alloc, entries.as_slice())?;
    let count = machine.log().len();
    format!(in alloc;
        "{count}, sent at {sent:?}, closed {}, done {}",
        machine.closed(),
        machine.done()
    )
}

/// What is printed of a question's answer, or of the reply to a call or a message.
fn said(alloc: Global, machine: &mut Machine, call: &str) -> Option<String> {
    let printed = match call {
        "choice" => format!(in alloc; "{:?}", choice(machine)?),
        "propose" => format!(in alloc; "{:?}", machine.propose(&mut Least)),
        "halted" => format!(in alloc; "{}", machine.halted()),
        "stuck" => format!(in alloc; "{}", stuck(alloc, machine)?),
        "log" => logged(alloc, machine),
        _ => format!(in alloc; "{:?}", make(machine, call)?),
    };
    printed.ok()
}

/// Whether the reply to a call begins so.
fn is_said(alloc: Global, machine: &mut Machine, call: &str, wanted: &str) -> Option<bool> {
    let said = said(alloc, machine, call)?;
    Some(said.as_str().starts_with(wanted))
}

/// Makes the calls of a script one after the other. Each line has a call and how its reply begins, as it is printed.
fn play(rt: &impl Abort, alloc: Global, machine: &mut Machine, script: &str) {
    for line in script.lines() {
        let (call, wanted) = line.split_once(" = ").unwrap_or((line, ""));
        let is_said = is_said(alloc, machine, call, wanted);
        holds(rt, line, is_said == Some(true));
    }
}

/// Plays two scripts, one behind the other, from the first call on.
fn assert_plays(rt: &impl Abort, alloc: Global, options: Options, first: &str, then: &str)
    requires { AreOptions options }
{
    let mut machine = fresh(rt, alloc, options);
    play(rt, alloc, &mut machine, first);
    play(rt, alloc, &mut machine, then);
}

const COMMITTED: &str = "goal 1 obs 10 20 must = Ok(Done)
add-for-1 10 = Ok(Done)
rest = Ok(Rested(Clear))
commit 30 = Ok(Done)";

/// Why a commit is refused.
const CAUSES: &str = "commit 30 = Ok(CommitBehind)
commit 101 = Ok(CommitBeyond)
commit 100 = Ok(Done)";

const FULL_PLAN: Options = Options {
    turns: 8,
    live: 1,
    goals: 20000,
    entries: 250000,
};

const STUCK: &str = "close = Ok(Done)
goal 2 obs 40 50 must = Ok(Done)
add-for-1 10 = Ok(Stale)
add-for-2 39 = Ok(NotFor)
add-for-2 40 = Ok(Full)
rest = Ok(Rested(Stuck))";

#[test]
fn is_stuck_where_the_plan_is_full(rt: HostRuntime) {
    assert_plays(&rt, rt.alloc(), FULL_PLAN, COMMITTED, STUCK);
}

const ONE_GOAL: Options = Options {
    turns: 8,
    live: 10000,
    goals: 1,
    entries: 250000,
};

const REFUSED: &str = "close = Ok(Done)
goal 2 obs 40 50 must = Ok(TooManyGoals)";

#[test]
fn takes_so_many_goals(rt: HostRuntime) {
    assert_plays(&rt, rt.alloc(), ONE_GOAL, COMMITTED, REFUSED);
}

/// It waits for a message.
const CLOSED: &str = "rest = Err(NotNow)
dispatch = Err(NotNow)
close = Err(NotNow)
commit 1 = Err(NotNow)
add-for-1 10 = Err(NotNow)";

const TWO_ENTRIES: Options = Options {
    turns: 8,
    live: 10000,
    goals: 20000,
    entries: 2,
};

#[test]
fn stops_where_the_log_is_full(rt: HostRuntime) {
    let full = "tick 3 = Ok(Done)\nrest = Err(LogFull)";
    assert_plays(&rt, rt.alloc(), TWO_ENTRIES, full, "");
}

/// A commit is held for its conflict.
const HELD: &str = "goal 1 obs 10 20 must = Ok(Done)
commit 20 = Ok(Done)
commit 21 = Ok(Held(Conflict { from: 20, code: OpenGoal, subject: 1, detail: 0, a: 10, b: 20 }))";

/// A command is sent in its round.
const BEHIND: &str = "close = Ok(Done)
tick 10 = Ok(Done)
rest = Ok(Rested(Clear))
close = Err(NotNow)
dispatch = Ok(Sent { id: 1, kind: 0, start: 10, values: Items { items: [] } })
dispatch = Err(NotNow)
close = Err(NotNow)
commit 40 = Ok(Done)
close = Ok(Done)
tick 10 = Ok(TickBack)
rest = Ok(Rested(Clear))
close = Ok(Done)
end = Ok(Ended)
eof = Err(NotNow)
log = 15, sent at [8], closed true, done true";

const NOTHING: &str = "choice = None
propose = Ok(None)";

const ASKED: &str = "goal 1 obs 10 20 must = Ok(Done)";

/// What is next while a goal is open.
const NEXT: &str = "choice = Some(Commit(30))
propose = Ok(Some(Proposal { conflict: Conflict { from: 20, code: OpenGoal, subject: 1, detail: 0, a: 10, b: 20 }, mv: Add { kind: 0, start: 10, goal: Some(1) } }))
stuck = false";

/// Scripts, two by two, each pair from the first call on.
const SCRIPTS: [(&str, &str); 9] = [
    (COMMITTED, CAUSES),
    (CLOSED, ""),
    (HELD, ""),
    (COMMITTED, BEHIND),
    (NOTHING, ""),
    (ASKED, NEXT),
    (COMMITTED, MEASURED),
    (COMMITTED, HALTED),
    (COMMITTED, GOES_ON),
];

#[test]
fn answers_each_call(rt: HostRuntime) {
    for (first, then) in SCRIPTS {
        assert_plays(&rt, rt.alloc(), BOUNDS, first, then);
    }
}

#[test]
fn tells_begin_lines(rt: HostRuntime) {
    let alloc = rt.alloc();
    let one = is_begin_line(alloc, b" begin # now").expect(&rt, "memory");
    holds(&rt, "one begin", one);
    let two = is_begin_line(alloc, b"begin begin").expect(&rt, "memory");
    holds(&rt, "no two", !two);
}

//! What words ask for.
use crate::asserting::holds;
use crate::running::words_of;
use pl_main::{Command, Task, read_words};
use std::alloc::Global;
use std::process::Abort;

/// What the words ask for: the turns of a run, 0 for a check, 1,001 for a replay, 1,002 for a report and 1,003 for a forecast, 10,000 and
/// the steps that better a plan, the goals of a demonstration, the id of an activity whose paths are asked for, the turns and the seed
/// of a pair added up, and the planners of a crew with them, nothing where they are no command.
fn number_of(words: &[String]) -> Option<u64> {
    match read_words(words)? {
        Command::Pair { turns, seed } => seed.checked_add(u64::from(turns)),
        Command::Crew {
            turns,
            planners,
            seed,
        } => seed
            .checked_add(u64::from(turns))?
            .checked_add(u64::from(planners)),
        Command::Alone(Task::Solo { turns }) => Some(u64::from(turns)),
        Command::Alone(Task::Check) => Some(0),
        Command::Alone(Task::Replay) => Some(1001),
        Command::Alone(Task::Report) => Some(1002),
        Command::Alone(Task::Flex { id }) => Some(id),
        Command::Alone(Task::Forecast) => Some(1003),
        Command::Alone(Task::Improve { steps }) => u64::from(steps).checked_add(10_000),
        Command::Alone(Task::Demo { goals }) => Some(u64::from(goals)),
    }
}

const WORDS: &str = "check = 0
Check = none
check 8 = none
replay = 1001
report = 1002
replay 8 = none
Report = none
run solo 8 = 8
run solo 1 = 1
run solo 1000 = 1000
run solo 000000000000000008 = 8
run solo 0000000000000000008 = none
run solo 0 = none
run solo 1001 = none
run solo +8 = none
run solo = none
run solo 8 9 = none
run pair 8 = none
run pair 8 7 = 15
run pair 1000 999999999999999999 = 1000000000000000999
run pair 1 000000000000000000 = 1
run pair 8 1000000000000000000 = none
run pair 0 7 = none
run pair 1001 7 = none
run pair 8 -7 = none
run pair 8 7 9 = none
run Pair 8 7 = none
run crew 8 2 7 = 17
run crew 1000 8 999999999999999999 = 1000000000000001007
run crew 1 000000000000000002 0 = 3
run crew 8 1 7 = none
run crew 8 9 7 = none
run crew 8 0 7 = none
run crew 0 2 7 = none
run crew 1001 2 7 = none
run crew 8 2 1000000000000000000 = none
run crew 8 -2 7 = none
run crew 8 2 = none
run crew 8 2 7 9 = none
run Crew 8 2 7 = none
crew 8 2 7 = none
Run solo 8 = none
demo 1 = 1
demo 4000 = 4000
demo 0 = none
demo 4001 = none
demo = none
demo 1 2 = none
demo one = none
flex 0 = 0
flex 999999999999999999 = 999999999999999999
flex 1000000000000000000 = none
flex = none
flex 1 2 = none
flex -1 = none
forecast = 1003
forecast 8 = none
Forecast = none
improve 1 = 10001
improve 000000000000001000 = 11000
improve 0 = none
improve 1001 = none
improve = none
improve 1 2 = none
Improve 1 = none";

/// Asserts a row of these.
fn assert_read(rt: &impl Abort, alloc: Global, row: &str) {
    let (text, wanted) = row.split_once(" = ").unwrap_or((row, ""));
    let words = words_of(rt, alloc, text);
    holds(rt, row, number_of(&words) == wanted.parse().ok());
}

#[test]
fn reads_words(rt: HostRuntime) {
    for row in WORDS.lines() {
        assert_read(&rt, rt.alloc(), row);
    }
    holds(&rt, "no words", number_of(&[]).is_none());
}

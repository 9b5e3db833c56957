ghost use Rattle.std.specs.Prelude.{◌≡◌, true};
ghost use Rattle.pl_msg.specs.Limits.{IsNumbered, HasFewStates};

use crate::asserting::holds;
use crate::reading::model;
use pl_lists::Copied;
use pl_model::{Model, Timeline};
use pl_msg::{ParseFault, read_message};
use std::alloc::{AllocError, Global};
use std::process::Abort;

/// A capacity `cam`, a level `bat` and a state timeline `mode`; a kind `scan` without parameters, and a kind `obs` with `frames`
/// from 1 to 10, `sum` that depends on it, and `gain` from 1 to 5.
const MODEL: &str =
    "horizon 100 lead 30 capacity cam 5 level bat 3 9 5 state mode { off on } start off any
kind scan { duration 5 }
kind obs { param frames 1 10 param sum 1 99 = frames param gain 1 5 default 2 duration 5 }";

fn has_few_states(timeline: &Timeline) -> bool
    ensures { result ≡ true → HasFewStates timeline.now }
{
    match timeline {
        Timeline::States { states, .. } => states.len() <= 32,
        _ => true,
    }
}

/// Whether there are three timelines and few kinds.
fn is_small(model: &Model) -> bool
    ensures { result ≡ true → IsNumbered model.now }
{
    match model.timelines.as_slice() {
        [cam, bat, mode] => {
            model.kinds.len() <= 256
                && has_few_states(cam)
                && has_few_states(bat)
                && has_few_states(mode)
        }
        _ => false,
    }
}

/// What is read of a line and again of a copy, as it is printed, or the fault.
fn read(alloc: Global, line: &str, model: &Model) -> Result<String, AllocError>
    requires { IsNumbered model.now }
{
    if line.len() > 4096 {
        return String::from_str(alloc, "long");
    }
    match read_message(alloc, line.as_bytes(), model) {
        Ok(message) => format!(in alloc; "{:?}", message.copy(alloc)?),
        Err(ParseFault::Memory) => Err(AllocError),
        Err(fault) => fault.to_string(alloc),
    }
}

/// Reads each line of a table, which stands before what is read of it.
fn assert_read(rt: &impl Abort, alloc: Global, table: &str) {
    let model = model(rt, alloc, MODEL);
    holds(rt, "a small model", is_small(&model));
    for row in table.lines() {
        let (line, wanted) = row.split_once(" => ").unwrap_or((row, ""));
        let found = read(alloc, line, &model).expect(rt, "memory");
        holds(rt, line, found.as_str() == wanted);
    }
}

const GOALS: &str =
    "goal 3 obs 2 5 may => Goal(Goal { number: 3, kind: 1, earliest: 2, latest: 5, must: false, presets: Items { items: [None, None, None] }, dropped: false })
goal 3 pic 1 2 may => unknown name
goal 3 obs 5 2 may => out of range
goal 3 obs 5 => bad line
\tgoal 007 scan 0 99 must # comment => Goal(Goal { number: 7, kind: 0, earliest: 0, latest: 99, must: true, presets: Items { items: [] }, dropped: false })
goal 1000000000 obs 2 2 may gain=5 frames = 1 => Goal(Goal { number: 1000000000, kind: 1, earliest: 2, latest: 2, must: false, presets: Items { items: [Some(1), None, Some(5)] }, dropped: false })
goal 1 obs 2 5 may frames=8 frames=8 => bad line
goal 1 obs 2 5 may frames=8 pic= => bad line
goal 1 obs 2 5 may frames=gain => bad line
goal 1 obs 2 5 may sum=8 => unknown name
goal 1 obs 2 5 may frames=8 pic=8 => unknown name
goal 1 obs 2 5 may frames=0 => out of range
goal 1 obs 2 5 may gain=6 => out of range
goal 0 obs 2 5 may => out of range
goal 1000000001 obs 2 5 may => out of range
goal 1 obs 2 100 may => out of range
goal 1 start 1 2 must => bad line
goal 1 obs 2 5 end => bad line
goal 0 pic 5 2 may frames=99 $ => bad line
goal 0 pic 5 2 may frames=99 => unknown name";

const OTHERS: &str = "tele bat 1000000000000 => TeleLevel(1, 1000000000000)
tele bat 1000000000001 => out of range
tele bat on => out of range
tele mode on => TeleState(2, 1)
tele mode 1 => unknown name
tele mode warm => unknown name
tele mode any => bad line
tele cam 1 => unknown name
tele level 1 => bad line
tele bat => bad line
tele bat = => bad line
tele bat - 1 => bad line
tick 999999999999999999 => Tick(999999999999999999)
tick 1000000000000000000 => bad line
tick now => bad line
until 1 100 => Until(1, 100)
until 0 0 => Until(0, 0)
until 999999999999999999 100 => Until(999999999999999999, 100)
until 1 101 => out of range
until 999999999999999999 4294967296 => out of range
until 1 => bad line
until 1 2 3 => bad line
until one 2 => bad line
until 1 - 2 => bad line
halt => Halt
halt # at once => Halt
halt 5 => bad line
goal 1 until 1 2 must => unknown name
end => End
end end => bad line
stop => bad line
 => bad line";

#[test]
fn reads_messages(rt: HostRuntime) {
    for table in [GOALS, OTHERS] {
        assert_read(&rt, rt.alloc(), table);
    }
}

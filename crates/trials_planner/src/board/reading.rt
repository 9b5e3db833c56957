//! Conflicts and moves that the tests read of their tables' texts.
use crate::reading::{number, word};
use pl_conflict::{Code, Conflict};
use pl_plan::RepairMove;

fn code(name: &str) -> Code {
    match name {
        "open-goal" => Code::OpenGoal,
        "off-goal" => Code::OffGoal,
        "late" => Code::Late,
        "unset" => Code::Unset,
        "bad-value" => Code::BadValue,
        "undetailed" => Code::Undetailed,
        "overrun" => Code::Overrun,
        "temporal" => Code::Temporal,
        "link" => Code::Linked,
        "over" => Code::Over,
        "low" => Code::Low,
        "high" => Code::High,
        "must" => Code::Must,
        _ => Code::BadStep,
    }
}

/// The conflict of a line as the journal prints it.
pub fn conflict(line: &str) -> Conflict {
    let mut rest = line;
    Conflict {
        from: number(&mut rest),
        code: code(word(&mut rest)),
        subject: number(&mut rest),
        detail: number(&mut rest),
        a: number(&mut rest),
        b: number(&mut rest),
    }
}

/// The goal that a move's last words name.
fn goal(rest: &str) -> Option<u32> {
    let (first, name) = rest.split_once(' ')?;
    if first == "goal" {
        name.parse().ok()
    } else {
        None
    }
}

/// The move of a line; a kind is its number.
pub fn repair(line: &str) -> RepairMove {
    let mut rest = line;
    let name = word(&mut rest);
    let id = number(&mut rest);
    let second = number(&mut rest);
    let (kind, start, alternative, goal) = (id, second, second, goal(rest));
    match name {
        "add" => RepairMove::Add { kind, start, goal },
        "delete" => RepairMove::Delete { id },
        "shift" => RepairMove::Shift { id, start },
        "detail" => RepairMove::Detail { id, alternative },
        "abstract" => RepairMove::Abstract { id },
        "assign" => RepairMove::Assign {
            id,
            param: u8::try_from(second).unwrap_or(0),
            value: i64::from(number(&mut rest)),
        },
        _ => RepairMove::Drop { goal: id },
    }
}

//! Numbers handed back as they are, so that contracts can say that they fit their types.

ghost use Rattle.std.specs.Prelude.{◌≡◌, ◌<◌};
ghost use Rattle.pl_entry.specs.Bounds.{IsWord, IsWordIf, IsConflictInRange};
ghost use Rattle.pl_machine.specs.Repairs.{FitsTypes};

use pl_conflict::Conflict;
use pl_plan::RepairMove;

pub(crate) fn word(number: u32) -> u32
    ensures same { result ≡ number }
    ensures fits { IsWord number }
{
    number
}

fn word_of(number: Option<u32>) -> Option<u32>
    ensures same { result ≡ number }
    ensures fits { IsWordIf number }
{
    match number {
        None => None,
        Some(number) => Some(word(number)),
    }
}

fn byte(number: u8) -> u8
    ensures same { result ≡ number }
    ensures fits { number < 256 }
{
    number
}

/// The same conflict, of which the contract says that its numbers fit their types.
pub(crate) fn known_conflict(conflict: &Conflict) -> Conflict
    ensures same { result ≡ conflict.now }
    ensures fits { IsConflictInRange conflict.now }
{
    Conflict {
        from: word(conflict.from),
        code: conflict.code,
        subject: word(conflict.subject),
        detail: word(conflict.detail),
        a: word(conflict.a),
        b: word(conflict.b),
    }
}

/// The same move, of which the contract says that its numbers fit their types.
pub(crate) fn known_move(repair: &RepairMove) -> RepairMove
    ensures same { result ≡ repair.now }
    ensures fits { FitsTypes repair.now }
{
    match *repair {
        RepairMove::Add { kind, start, goal } => RepairMove::Add {
            kind: word(kind),
            start: word(start),
            goal: word_of(goal),
        },
        RepairMove::Delete { id } => RepairMove::Delete { id: word(id) },
        RepairMove::Shift { id, start } => RepairMove::Shift {
            id: word(id),
            start: word(start),
        },
        RepairMove::Detail { id, alternative } => RepairMove::Detail {
            id: word(id),
            alternative: word(alternative),
        },
        RepairMove::Abstract { id } => RepairMove::Abstract { id: word(id) },
        RepairMove::Assign { id, param, value } => RepairMove::Assign {
            id: word(id),
            param: byte(param),
            value,
        },
        RepairMove::Drop { goal } => RepairMove::Drop { goal: word(goal) },
    }
}

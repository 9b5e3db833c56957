ghost use Rattle.std.specs.Prelude.{◌≡◌, take, drop, slice_index};
ghost use Rattle.pl_log.specs.Unpacking.{first_value, conflict_in, move_in};

use crate::form::MoveForm;
use pl_conflict::{Code, Conflict};
use pl_plan::RepairMove;

/// All items but the first `count`.
pub(crate) fn after<T>(items: &[T], count: usize) -> &[T]
    ensures { result.now ≡ drop count items.now }
{
    if count < items.len() {
        &items[count..]
    } else {
        &[]
    }
}

/// The first `count` items, or all if there are fewer.
pub(crate) fn first_of<T>(items: &[T], count: usize) -> &[T]
    ensures { result.now ≡ take count items.now }
{
    if count < items.len() {
        &items[..count]
    } else {
        items
    }
}

/// The number at a place, or 0 if there is none.
pub(crate) fn number_at(numbers: &[u32], place: usize) -> u32
    ensures { result ≡ slice_index numbers.now place }
{
    numbers.get(place).copied().unwrap_or(0)
}

/// The first value, and 0 if there is none.
fn first_value(values: &[Option<i64>]) -> i64
    ensures { result ≡ first_value values.now }
{
    match values {
        [Some(value), ..] => *value,
        _ => 0,
    }
}

/// The conflict whose numbers these are.
pub(crate) fn conflict_in(code: Code, numbers: &[u32]) -> Conflict
    ensures { result ≡ conflict_in code numbers.now }
{
    Conflict {
        from: number_at(numbers, 0),
        code,
        subject: number_at(numbers, 1),
        detail: number_at(numbers, 2),
        a: number_at(numbers, 3),
        b: number_at(numbers, 4),
    }
}

/// The repair of this form. Its numbers stand behind those of its conflict.
pub(crate) fn move_in(form: MoveForm, numbers: &[u32], values: &[Option<i64>]) -> RepairMove
    ensures { result ≡ move_in form numbers.now values.now }
{
    let first = number_at(numbers, 5);
    let second = number_at(numbers, 6);
    match form {
        MoveForm::Add => RepairMove::Add {
            kind: first,
            start: second,
            goal: None,
        },
        MoveForm::AddFor => RepairMove::Add {
            kind: first,
            start: second,
            goal: Some(number_at(numbers, 7)),
        },
        MoveForm::Delete => RepairMove::Delete { id: first },
        MoveForm::Shift => RepairMove::Shift {
            id: first,
            start: second,
        },
        MoveForm::Detail => RepairMove::Detail {
            id: first,
            alternative: second,
        },
        MoveForm::Abstract => RepairMove::Abstract { id: first },
        MoveForm::Assign(param) => RepairMove::Assign {
            id: first,
            param,
            value: first_value(values),
        },
        MoveForm::Drop => RepairMove::Drop { goal: first },
    }
}

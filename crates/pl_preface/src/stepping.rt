ghost use Rattle.std.specs.Prelude.{◌≡◌, ◌<◌, ◌^◌, length, IfOk, All};
ghost use Rattle.pl_model.specs.Checked.{IsChecked};
ghost use Rattle.pl_preface.specs.Prefaces.{found_by, found_in, add_item, step_by, FitsFound, FitsStep};

use crate::asked::Asked;
use crate::found::{Found, Step};
use crate::refusal::Refusal;
use pl_input::{is_blank_line, is_line_of};
use pl_lists::Items;
use pl_model::Model;
use std::alloc::{AllocError, Global};

/// The most items that may stand before a journal.
const MOST: usize = 64;

fn found_by<T: Asked>(alloc: Global, model: &Model, line: &[u8]) -> Result<Found<T>, AllocError>
    requires checked { IsChecked model.now }
    requires short { length line.now < 2 ^ 32 }
    ensures is { IfOk result (λ found. found ≡ found_by (T.meant model.now line.now)) }
    ensures fits { IfOk result (FitsFound (T.fits model.now)) }
{
    match T::read(alloc, model, line)? {
        Ok(item) => Ok(Found::Item(item)),
        Err(problem) => Ok(Found::Faulty(problem)),
    }
}

/// What a line is.
pub(crate) fn find<T: Asked>(
    alloc: Global,
    model: &Model,
    line: &[u8],
) -> Result<Found<T>, AllocError>
    requires checked { IsChecked model.now }
    requires short { length line.now < 2 ^ 32 }
    ensures is { IfOk result (λ found. found ≡ found_in (T.meant model.now) line.now) }
    ensures fits { IfOk result (FitsFound (T.fits model.now)) }
{
    if is_line_of(alloc, b"journal", line)? {
        Ok(Found::Journal)
    } else if is_blank_line(line) {
        Ok(Found::Blank)
    } else {
        found_by(alloc, model, line)
    }
}

/// One item more, unless there are as many as may be.
fn add_item<T: Drop>(number: u64, item: T, mut items: Items<T>) -> Result<Step<T>, AllocError>
    ensures { IfOk result (λ step. step ≡ add_item number item items) }
{
    if items.len() < MOST {
        items.push(item)?;
        Ok(Step::More(items))
    } else {
        Ok(Step::Refused(Refusal::TooMany(number)))
    }
}

/// How the reading goes on behind a line of this number.
pub(crate) fn step_by<T: Drop>(
    number: u64,
    found: Found<T>,
    items: Items<T>,
) -> Result<Step<T>, AllocError>
    ensures { IfOk result (λ step. step ≡ step_by number items found) }
{
    match found {
        Found::Journal => Ok(Step::Given(items)),
        Found::Blank => Ok(Step::More(items)),
        Found::Item(item) => add_item(number, item, items),
        Found::Faulty(problem) => Ok(Step::Refused(Refusal::Faulty(number, problem))),
    }
}

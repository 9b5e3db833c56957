ghost use Rattle.std.specs.Prelude.{◌≡◌, ◌≤◌, ◌<◌, ◌^◌, None, All, IfOk, IsErrOf, length};
ghost use Rattle.pl_io.specs.Faults.{Rose};
ghost use Rattle.pl_io.specs.Lines.{ahead};
ghost use Rattle.pl_model.specs.Checked.{IsChecked};
ghost use Rattle.pl_preface.specs.Prefaces.{found_in, step_by, FitsStep};
ghost use Rattle.pl_preface.specs.Gives.{ReadsStep, GivesPreface, FitsPreface, HasFewItems};

use crate::asked::Asked;
use crate::found::Step;
use crate::preface::Preface;
use crate::refusal::Refusal;
use crate::stepping::{find, step_by};
use pl_input::next_line;
use pl_io::{LineFault, LineReader, Source};
use pl_lists::Items;
use pl_model::Model;
use std::alloc::{AllocError, Global};

/// How the reading goes on behind a line, with the items before it.
#[tactic(auto, using(crate::proofs::Lines::step_fits))]
fn go_on<T: Asked>(
    alloc: Global,
    model: &Model,
    number: u64,
    line: &[u8],
    items: Items<T>,
) -> Result<Step<T>, AllocError>
    requires checked { IsChecked model.now }
    requires short { length line.now < 2 ^ 32 }
    requires fits { All (T.fits model.now) items }
    ensures is { IfOk result (λ step. step ≡ step_by number items (found_in (T.meant model.now) line.now)) }
    ensures fits { IfOk result (FitsStep (T.fits model.now)) }
{
    let found = find(alloc, model, line)?;
    let next = step_by(number, found, items)?;
    Ok(next)
}

/// The next line, with the items before it.
#[tactic(auto, using(pl_input::proofs::Reading::memory_halts))]
fn look<T: Asked, S: Source>(
    alloc: Global,
    model: &Model,
    lines: &mut LineReader,
    src: &mut S,
    items: Items<T>,
) -> Result<Step<T>, LineFault>
    requires checked { IsChecked model.now }
    requires limit { lines.old.limit < 2 ^ 32 }
    requires working { lines.old.failed ≡ None }
    requires fits { All (T.fits model.now) items }
    ensures line { ReadsStep (T.meant model.now) lines.old (ahead lines.old.held (S.left src.old)) items result lines.new (ahead lines.new.held (S.left src.new)) }
    ensures fits { IfOk result (FitsStep (T.fits model.now)) }
    ensures cause { IsErrOf result LineFault.Read → Rose (S.faults src.old) (S.faults src.new) }
    ensures later { S.faults src.old ≤ S.faults src.new }
{
    match next_line(lines, src)? {
        None => Ok(Step::Ended),
        Some(line) => {
            let next = go_on(alloc, model, line.number, line.bytes(), items)?;
            Ok(next)
        }
    }
}

/// Reads what stands before a journal, for a checked model: up to and with the line `journal`, or the first line that is refused.
#[tactic(auto, using(crate::proofs::Lines::no_items, crate::proofs::Lines::before_none, crate::proofs::Lines::before_on, crate::proofs::Lines::before_whole, crate::proofs::Lines::before_refused, crate::proofs::Lines::before_ended, crate::proofs::Lines::before_halted))]
pub fn read_preface<T: Asked, S: Source>(
    alloc: Global,
    model: &Model,
    lines: &mut LineReader,
    src: &mut S,
) -> Result<Preface<T>, LineFault>
    requires checked { IsChecked model.now }
    requires limit { lines.old.limit < 2 ^ 32 }
    requires working { lines.old.failed ≡ None }
    ensures preface { GivesPreface (T.meant model.now) lines.old (ahead lines.old.held (S.left src.old)) result lines.new (ahead lines.new.held (S.left src.new)) }
    ensures fits { IfOk result (FitsPreface (T.fits model.now)) }
    ensures few { IfOk result HasFewItems }
    ensures cause { IsErrOf result LineFault.Read → Rose (S.faults src.old) (S.faults src.new) }
    ensures later { S.faults src.old ≤ S.faults src.new }
{
    let mut items = Items::new(alloc);
    'preface: loop {
        match look(alloc, model, lines, src, items)? {
            Step::More(more) => items = more,
            Step::Given(all) => return Ok(Preface::Given(all)),
            Step::Refused(why) => return Ok(Preface::Refused(why)),
            Step::Ended => return Ok(Preface::Refused(Refusal::NoJournal)),
        }
    }
}

//! Which conflicts leave a timeline, and which come, as it changes.
ghost use Rattle.std.specs.Prelude.{◌≡◌, ◌++◌, ◌&&◌, ◌||◌, not, List, map, IfOk, OnOk};
ghost use Rattle.pl_conflict.specs.declared.conflict.Conflict.{Conflict};
ghost use Rattle.pl_conflict.specs.Order.{has};
ghost use Rattle.pl_conflict.specs.Sorting.{AreInOrder};
ghost use Rattle.pl_points.specs.declared.span.Span.{Span};
ghost use Rattle.pl_points.specs.Changes.{IsChange};
ghost use Rattle.pl_level.specs.Soundness.{AreChanges as AreLevelChanges};
ghost use Rattle.pl_state.specs.declared.answer.BrokenMust.{BrokenMust};
ghost use Rattle.pl_state.specs.declared.answer.BadSet.{BadSet};
ghost use Rattle.pl_state.specs.Timelines.{AreChanges};
ghost use Rattle.pl_semantics.specs.Timelines.{outside, unmet_must, bad_step};
ghost use Rattle.pl_update.specs.Timelines.Changed.{IsExchanged};

use pl_conflict::{Code, Conflict, ConflictSet};
use pl_detect::{add_bad_steps, add_musts, add_outside};
use pl_level::LevelChange;
use pl_points::Change;
use pl_semantics::PlanState;
use pl_state::StateChange;
use std::alloc::{AllocError, Global};

/// What went, and what came.
#[derive(Drop)]
pub(crate) struct Exchange {
    pub(crate) went: Vec<Conflict>,
    pub(crate) came: Vec<Conflict>,
}

impl Exchange {
    /// Takes out of the set what went, and puts in what came. Mostly there is nothing to take out or put in.
    pub(crate) fn apply_to(&self, set: &mut ConflictSet) -> Result<(), AllocError>
        ensures members { OnOk result ((q : Conflict) → has q set.new ≡ ((has q set.old && not (has q self.now.went.items)) || has q self.now.came.items)) }
        ensures sorted { OnOk result (AreInOrder set.old → AreInOrder set.new) }
    {
        if self.went.is_empty() && self.came.is_empty() {
            return Ok(());
        }
        set.exchange(&self.went, &self.came)?;
        Ok(())
    }
}

/// The conflicts of a capacity's spans.
pub(crate) fn of_spans(alloc: Global, line: u32, change: &Change) -> Result<Exchange, AllocError>
    ensures { IfOk result (λ e. (old new : List Span) → IsChange old new change.now →
        IsExchanged (map (outside Code.Over line) old) (map (outside Code.Over line) new) e.went.items e.came.items) }
{
    let mut went = Vec::new(alloc);
    let mut came = Vec::new(alloc);
    add_outside(Code::Over, line, change.went.as_slice(), &mut went)?;
    add_outside(Code::Over, line, change.came.as_slice(), &mut came)?;
    Ok(Exchange { went, came })
}

/// The conflicts of a level's spans.
pub(crate) fn of_levels(
    alloc: Global,
    line: u32,
    change: &LevelChange,
) -> Result<Exchange, AllocError>
    ensures { IfOk result (λ e. (low low' high high' : List Span) → AreLevelChanges low low' high high' change.now →
        IsExchanged (map (outside Code.Low line) low ++ map (outside Code.High line) high)
        (map (outside Code.Low line) low' ++ map (outside Code.High line) high') e.went.items e.came.items) }
{
    let mut went = Vec::new(alloc);
    let mut came = Vec::new(alloc);
    add_outside(Code::Low, line, change.low.went.as_slice(), &mut went)?;
    add_outside(Code::High, line, change.high.went.as_slice(), &mut went)?;
    add_outside(Code::Low, line, change.low.came.as_slice(), &mut came)?;
    add_outside(Code::High, line, change.high.came.as_slice(), &mut came)?;
    Ok(Exchange { went, came })
}

/// The conflicts of a state's musts and steps. They begin with their activities.
pub(crate) fn of_states(
    alloc: Global,
    s: &PlanState,
    change: &StateChange,
) -> Result<Exchange, AllocError>
    ensures { IfOk result (λ e. (broken broken' : List BrokenMust) (bad bad' : List BadSet) → AreChanges broken broken' bad bad' change.now →
        IsExchanged (map (unmet_must s.now) broken ++ map (bad_step s.now) bad)
        (map (unmet_must s.now) broken' ++ map (bad_step s.now) bad') e.went.items e.came.items) }
{
    let mut went = Vec::new(alloc);
    let mut came = Vec::new(alloc);
    add_musts(s, change.musts_went.as_slice(), &mut went)?;
    add_bad_steps(s, change.steps_went.as_slice(), &mut went)?;
    add_musts(s, change.musts_came.as_slice(), &mut came)?;
    add_bad_steps(s, change.steps_came.as_slice(), &mut came)?;
    Ok(Exchange { went, came })
}

//! A plan state with what is kept of it, mended near each change.
ghost use Rattle.std.specs.Prelude.{◌≡◌, OnOk, IfOk, IsTrue, None, ◌≤◌, ◌<◌, [], ◌∷◌, ◌++◌, slice_get};
ghost use Rattle.pl_conflict.specs.Sorting.{exchanged};
ghost use Rattle.pl_update.specs.GoalsAndActivities.Near.{near, HoldSame};
ghost use Rattle.std.specs.List.Sorted.{IsStrictlyIncreasing};
ghost use Rattle.pl_facts.specs.Goals.{goal_of};
ghost use Rattle.pl_semantics.specs.Whole.{IsWhole, IsGoalOf};
ghost use Rattle.pl_update.specs.Changes.Changes.{with_goal, without_goal, moved_on, told_now, CanTell, IsOpenIn};
ghost use Rattle.pl_update.specs.Changes.Replaced.{CanReplace, with_plan};
ghost use Rattle.pl_update.specs.Evaluations.Kept.{AreOf};
ghost use Rattle.pl_board.specs.Boards.{IsWatched};

use crate::asking::{asked_by, asked_of};
use pl_conflict::{Conflict, ConflictSet};
use pl_detect::detect;
use pl_facts::Goal;
use pl_links::Links;
use pl_lists::Copied;
use pl_plan::Activity;
use pl_points::{Ledger, Steps};
use pl_semantics::PlanState;
use pl_update::evaluations::Evaluations;
use pl_update::goals_and_activities::{Touched, each_once, near_kept, passed_by, turned_by};
use pl_update::links::Mended;
use pl_update::timelines::Lines;
use std::alloc::{AllocError, Global};

/// A plan state with what its activities come to, its timelines, the store of its links, and all that is wrong with it.
#[derive(Drop)]
pub(crate) struct WatchedState {
    pub(crate) state: PlanState,
    pub(crate) values: Evaluations,
    pub(crate) lines: Lines,
    pub(crate) links: Links,
    pub(crate) conflicts: ConflictSet,
}

impl WatchedState {
    /// Of a plan state at the moment 0 with nothing planned.
    pub(crate) fn new(alloc: Global, state: PlanState) -> Result<WatchedState, AllocError>
        requires whole { IsWhole state }
        requires first { state.moment ≡ 0 }
        requires none { state.plan.activities ≡ [] }
        ensures state { IfOk result (λ w. w.state ≡ state) }
        ensures watched { IfOk result IsWatched }
    {
        let lines = Lines::new(alloc, &state)?;
        let conflicts = detect(alloc, &state, &[])?;
        Ok(WatchedState {
            state,
            values: Evaluations::new(alloc),
            lines,
            links: Links::new(alloc),
            conflicts,
        })
    }

    // What is wrong with the goals of these numbers and the activities of these ids.
    fn wrong_at(
        &self,
        alloc: Global,
        numbers: &[u32],
        ids: &[u32],
    ) -> Result<Vec<Conflict>, AllocError>
        requires whole { IsWhole self.now.state }
        requires values { AreOf self.now.state self.now.values }
        ensures { IfOk result (λ all. all.items ≡ near self.now.state numbers.now ids.now) }
    {
        let mut all = Vec::new(alloc);
        near_kept(&self.state, &self.values, numbers, ids, &mut all)?;
        Ok(all)
    }

    // What is wrong with goals and activities that a change touches.
    pub(crate) fn wrong_near(
        &self,
        alloc: Global,
        touched: &Touched,
    ) -> Result<Vec<Conflict>, AllocError>
        requires whole { IsWhole self.now.state }
        requires values { AreOf self.now.state self.now.values }
        ensures { IfOk result (λ all. all.items ≡ near self.now.state touched.now.numbers.items touched.now.ids.items) }
    {
        self.wrong_at(alloc, &touched.numbers, &touched.ids)
    }

    // Puts what is wrong now in the place of what was wrong before the change.
    pub(crate) fn turn(
        &mut self,
        alloc: Global,
        touched: &Touched,
        mut went: Vec<Conflict>,
        mended: &Mended,
    ) -> Result<(), AllocError>
        requires whole { IsWhole self.old.state }
        requires values { AreOf self.old.state self.old.values }
        ensures same { OnOk result (self.new ≡ record self.old { conflicts = self.new.conflicts }) }
        ensures conflicts { OnOk result (self.new.conflicts ≡ exchanged self.old.conflicts (went.items ++ mended.now.went.items)
            (near self.old.state touched.now.numbers.items touched.now.ids.items ++ mended.now.came.items)) }
    {
        went.extend_from_slice(mended.went.as_slice())?;
        let mut came = self.wrong_near(alloc, touched)?;
        came.extend_from_slice(mended.came.as_slice())?;
        self.conflicts.exchange(&went, &came)?;
        Ok(())
    }

    pub(crate) fn replace<L: Ledger>(
        &mut self,
        alloc: Global,
        gone: &[u32],
        placed: &[Activity],
        steps: &mut Steps<L>,
    ) -> Result<(), AllocError>
        requires watched { IsWatched self.old }
        requires can { CanReplace self.old.state gone.now placed.now }
        ensures state { OnOk result (self.new.state ≡ with_plan gone.now placed.now self.old.state) }
        ensures watched { OnOk result (IsWatched self.new) }
    {
        if are_rising(gone) {
            return self.replace_once(alloc, gone, placed, steps);
        }
        let gone = once(alloc, gone)?;
        self.replace_once(alloc, &gone, placed, steps)?;
        Ok(())
    }

    // The same where each id that goes is named once.
    fn replace_once<L: Ledger>(
        &mut self,
        alloc: Global,
        gone: &[u32],
        placed: &[Activity],
        steps: &mut Steps<L>,
    ) -> Result<(), AllocError>
        requires watched { IsWatched self.old }
        requires can { CanReplace self.old.state gone.now placed.now }
        requires rising { IsStrictlyIncreasing gone.now }
        ensures state { OnOk result (self.new.state ≡ with_plan gone.now placed.now self.old.state) }
        ensures watched { OnOk result (IsWatched self.new) }
    {
        let turned = turned_by(alloc, &self.state, gone, placed)?;
        let went = self.wrong_at(alloc, &turned.met, &turned.after.ids)?;
        let given = asked_by(alloc, &self.state, &self.values, gone)?;
        self.lines
            .give_back(&self.state, &given, &mut self.conflicts, steps)?;
        let mended = pl_update::links::replace(
            alloc,
            &mut self.state,
            &mut self.values,
            &mut self.links,
            gone,
            placed,
        )?;
        let taken = asked_of(alloc, &self.state, &self.values, placed)?;
        self.lines
            .take_on(&self.state, &taken, &mut self.conflicts, steps)?;
        self.turn(alloc, &turned.after, went, &mended)?;
        Ok(())
    }

    pub(crate) fn add_goal(&mut self, alloc: Global, goal: Goal) -> Result<(), AllocError>
        requires watched { IsWatched self.old }
        requires fresh { goal_of goal.number self.old.state.goals ≡ None }
        requires of_model { IsGoalOf self.old.state.model goal }
        ensures state { OnOk result (self.new.state ≡ with_goal goal self.old.state) }
        ensures watched { OnOk result (IsWatched self.new) }
    {
        // Nothing was wrong with a goal that was not there.
        let number = goal.number;
        self.state.goals.push(goal)?;
        let mut came = Vec::new(alloc);
        near_kept(&self.state, &self.values, &[number], &[], &mut came)?;
        self.conflicts.exchange(&[], &came)?;
        Ok(())
    }

    pub(crate) fn drop_goal(&mut self, alloc: Global, number: u32) -> Result<(), AllocError>
        requires watched { IsWatched self.old }
        requires open { IsOpenIn self.old.state number }
        ensures state { OnOk result (self.new.state ≡ without_goal number self.old.state) }
        ensures watched { OnOk result (IsWatched self.new) }
    {
        let touched = one_goal(alloc, number)?;
        let went = self.wrong_near(alloc, &touched)?;
        self.state.goals.drop_goal(number);
        self.turn(alloc, &touched, went, &no_links(alloc))?;
        Ok(())
    }

    pub(crate) fn tick<L: Ledger>(
        &mut self,
        alloc: Global,
        now: u32,
        steps: &mut Steps<L>,
    ) -> Result<(), AllocError>
        requires watched { IsWatched self.old }
        requires later { self.old.state.moment < now }
        requires bound { now ≤ self.old.state.model.horizon }
        ensures state { OnOk result (self.new.state ≡ moved_on now self.old.state) }
        ensures watched { OnOk result (IsWatched self.new) }
    {
        let touched = passed_by(alloc, &self.state, &self.conflicts, now)?;
        let went = self.wrong_near(alloc, &touched)?;
        self.lines
            .advance(&self.state, now, &mut self.conflicts, steps)?;
        self.state.moment = now;
        let mended = pl_update::links::pass(alloc, &self.state, &self.conflicts)?;
        self.turn(alloc, &touched, went, &mended)?;
        Ok(())
    }

    pub(crate) fn tell<L: Ledger>(
        &mut self,
        line: u32,
        value: i64,
        steps: &mut Steps<L>,
    ) -> Result<(), AllocError>
        requires watched { IsWatched self.old }
        requires can { CanTell value (slice_get self.old.state.model.timelines line) }
        ensures state { OnOk result (self.new.state ≡ told_now line value self.old.state) }
        ensures watched { OnOk result (IsWatched self.new) }
    {
        self.lines
            .rebase(&self.state, line, value, &mut self.conflicts, steps)?;
        self.state
            .bases
            .set(line, i64::from(self.state.moment), value);
        Ok(())
    }
}

/// Whether each id is less than the next.
pub(crate) fn are_rising(ids: &[u32]) -> bool
    ensures { IsTrue result → IsStrictlyIncreasing ids.now }
{
    for place in 1..ids.len() {
        if ids[place] <= ids[place - 1] {
            return false;
        }
    }
    true
}

// The same ids, each once and rising.
fn once(alloc: Global, ids: &[u32]) -> Result<Vec<u32>, AllocError>
    ensures same { IfOk result (λ all. HoldSame all.items ids.now) }
    ensures rising { IfOk result (λ all. IsStrictlyIncreasing all.items) }
{
    let all = Vec::from_slice(alloc, ids)?;
    Ok(each_once(all))
}

// A single goal, and no activity.
fn one_goal(alloc: Global, number: u32) -> Result<Touched, AllocError>
    ensures numbers { IfOk result (λ t. t.numbers.items ≡ number ∷ []) }
    ensures ids { IfOk result (λ t. t.ids.items ≡ []) }
{
    let mut numbers = Vec::new(alloc);
    numbers.push(number)?;
    Ok(Touched {
        numbers,
        ids: Vec::new(alloc),
    })
}

// No conflict of links or orders.
fn no_links(alloc: Global) -> Mended
    ensures went { result.went.items ≡ [] }
    ensures came { result.came.items ≡ [] }
{
    Mended {
        went: Vec::new(alloc),
        came: Vec::new(alloc),
    }
}

fn copy_of(alloc: Global, set: &ConflictSet) -> Result<ConflictSet, AllocError>
    ensures { IfOk result (λ c. c ≡ set.now) }
{
    let all = set.list(alloc)?;
    let mut copy = ConflictSet::new(alloc);
    copy.exchange(&[], &all)?;
    Ok(copy)
}

impl Copied for WatchedState {
    fn copy(&self, alloc: Global) -> Result<WatchedState, AllocError> {
        Ok(WatchedState {
            state: self.state.copy(alloc)?,
            values: self.values.copy(alloc)?,
            lines: self.lines.copy(alloc)?,
            links: self.links.copy(alloc)?,
            conflicts: copy_of(alloc, &self.conflicts)?,
        })
    }
}

#![tactic(auto, using(pl_memo::proofs::Remembering::none_remembered))]

ghost use Rattle.std.specs.Prelude.{◌≡◌, OnOk, OnErr, IfOk, IsErr, true, false, None, ◌≤◌, ◌<◌, All, slice_get};
ghost use Rattle.std.specs.Arc.{arc_value};
ghost use Rattle.pl_facts.specs.Goals.{goal_of};
ghost use Rattle.pl_model.specs.Checked.{IsChecked};
ghost use Rattle.pl_semantics.specs.Conflicts.{conflicts_of};
ghost use Rattle.pl_semantics.specs.Whole.{IsWhole, IsGoalOf, IsIdBelow};
ghost use Rattle.pl_board.specs.Boards.{after, IsWatched};
ghost use Rattle.pl_update.specs.Changes.Changes.{first_state, with_goal, without_goal, moved_on, told_now, committed_to, measured_to, withdrawn, with_next, CanTell, IsOpenIn, CanMeasure};
ghost use Rattle.pl_update.specs.Changes.Replaced.{CanReplace, with_plan};

use crate::watched::WatchedState;
use pl_conflict::ConflictSet;
use pl_facts::{Bases, Goal, Goals};
use pl_lists::Copied;
use pl_memo::Memory;
use pl_model::Model;
use pl_plan::{Activity, Plan};
use pl_points::{Ledger, Steps};
use pl_semantics::{PlanState, SharedModel};
use std::alloc::{AllocError, Global};
use std::sync::Arc;

mod remembering;

// Makes a change of what is watched, after which nothing is remembered. Until the change is whole the board counts as
// spoiled, and a spoiled board refuses it.
macro_rules! guarded {
    ($board:expr, $change:expr) => {{
        if $board.spoiled {
            return Err(AllocError);
        }
        $board.memory = Memory::new($board.alloc);
        $board.spoiled = true;
        $change?;
        $board.spoiled = false;
        Ok(())
    }};
}

/// A plan state with its conflicts, which are mended near each change. After want of memory a board is spoiled for good. It also
/// remembers choices; no contract says which.
#[derive(Drop)]
pub struct Board {
    alloc: Global,
    watched: WatchedState,
    memory: Memory,
    spoiled: bool,
}

impl std::marker::Model for Board {
    ghost use Rattle.pl_board.specs.Boards.{Standing, IsSound};
    ghost use Rattle.pl_model.specs.contracts.expressions.Expr as e;
    ghost use Rattle.std.specs.Coded.{codes};

    ghost Value = { Standing };

    ghost coded = { Prim.hlevel (codes, e.the_row.coded) };

    ghost view = { λ b. record { spoiled = b.spoiled; state = b.watched.state } };

    ghost invariant = { λ b. IsSound b.watched b.memory b.spoiled };
}

impl Board {
    /// A board of a checked model at the moment 0, with nothing planned. At most `live` activities will be live.
    pub fn new(alloc: Global, model: Arc<Model>, live: u32) -> Result<Board, AllocError>
        requires checked { IsChecked (arc_value model) }
        requires live { live ≤ 10000 }
        ensures { IfOk result (λ b. b ≡ after (first_state (arc_value model) live)) }
    {
        let bases = Bases::new(alloc, &model)?;
        let state = PlanState {
            model: SharedModel::new(model),
            plan: Plan::new(alloc),
            goals: Goals::new(alloc),
            bases,
            moment: 0,
            committed: 0,
            next_id: 1,
            live_limit: live,
        };
        let watched = WatchedState::new(alloc, state)?;
        Ok(Board {
            alloc,
            watched,
            memory: Memory::new(alloc),
            spoiled: false,
        })
    }

    /// Takes the activities of `gone` out, and puts those of `placed` in their places.
    pub fn replace<L: Ledger>(
        &mut self,
        gone: &[u32],
        placed: &[Activity],
        steps: &mut Steps<L>,
    ) -> Result<(), AllocError>
        requires can { self.old.spoiled ≡ false → CanReplace self.old.state gone.now placed.now }
        ensures ok { OnOk result (self.new ≡ after (with_plan gone.now placed.now self.old.state)) }
        ensures err { OnErr result (self.new.spoiled ≡ true) }
        ensures after_spoil { self.old.spoiled ≡ true → IsErr result }
    {
        let memory = self.memory_after(gone, placed);
        self.replace_watched(gone, placed, steps)?;
        self.memory = memory;
        Ok(())
    }

    // The replacement alone, which forgets all that is remembered.
    fn replace_watched<L: Ledger>(
        &mut self,
        gone: &[u32],
        placed: &[Activity],
        steps: &mut Steps<L>,
    ) -> Result<(), AllocError>
        requires can { self.old.spoiled ≡ false → CanReplace self.old.state gone.now placed.now }
        ensures ok { OnOk result (self.new ≡ after (with_plan gone.now placed.now self.old.state)) }
        ensures err { OnErr result (self.new.spoiled ≡ true) }
        ensures after_spoil { self.old.spoiled ≡ true → IsErr result }
    {
        guarded!(self, self.watched.replace(self.alloc, gone, placed, steps))
    }

    /// Accepts a goal.
    pub fn add_goal(&mut self, goal: Goal) -> Result<(), AllocError>
        requires fresh { self.old.spoiled ≡ false → goal_of goal.number self.old.state.goals ≡ None }
        requires of_model { self.old.spoiled ≡ false → IsGoalOf self.old.state.model goal }
        requires stays { goal.dropped ≡ false }
        ensures ok { OnOk result (self.new ≡ after (with_goal goal self.old.state)) }
        ensures err { OnErr result (self.new.spoiled ≡ true) }
        ensures after_spoil { self.old.spoiled ≡ true → IsErr result }
    {
        guarded!(self, self.watched.add_goal(self.alloc, goal))
    }

    /// Drops an open goal.
    pub fn drop_goal(&mut self, number: u32) -> Result<(), AllocError>
        requires { self.old.spoiled ≡ false → IsOpenIn self.old.state number }
        ensures ok { OnOk result (self.new ≡ after (without_goal number self.old.state)) }
        ensures err { OnErr result (self.new.spoiled ≡ true) }
        ensures after_spoil { self.old.spoiled ≡ true → IsErr result }
    {
        guarded!(self, self.watched.drop_goal(self.alloc, number))
    }

    /// Moves the present on.
    pub fn tick<L: Ledger>(&mut self, now: u32, steps: &mut Steps<L>) -> Result<(), AllocError>
        requires later { self.old.spoiled ≡ false → self.old.state.moment < now }
        requires bound { self.old.spoiled ≡ false → now ≤ self.old.state.model.horizon }
        ensures ok { OnOk result (self.new ≡ after (moved_on now self.old.state)) }
        ensures err { OnErr result (self.new.spoiled ≡ true) }
        ensures after_spoil { self.old.spoiled ≡ true → IsErr result }
    {
        guarded!(self, self.watched.tick(self.alloc, now, steps))
    }

    /// Tells the value of a level, or the state of a state timeline, at the present.
    pub fn telemetry<L: Ledger>(
        &mut self,
        line: u32,
        value: i64,
        steps: &mut Steps<L>,
    ) -> Result<(), AllocError>
        requires { self.old.spoiled ≡ false → CanTell value (slice_get self.old.state.model.timelines line) }
        ensures ok { OnOk result (self.new ≡ after (told_now line value self.old.state)) }
        ensures err { OnErr result (self.new.spoiled ≡ true) }
        ensures after_spoil { self.old.spoiled ≡ true → IsErr result }
    {
        guarded!(self, self.watched.tell(line, value, steps))
    }

    /// Commits what starts before `h`.
    pub fn commit(&mut self, h: u32) -> Result<(), AllocError>
        requires least { self.old.spoiled ≡ false → self.old.state.committed ≤ h }
        requires most { self.old.spoiled ≡ false → h ≤ self.old.state.model.horizon }
        ensures ok { OnOk result (self.new ≡ after (committed_to h self.old.state)) }
        ensures err { OnErr result (self.new.spoiled ≡ true) }
        ensures after_spoil { self.old.spoiled ≡ true → IsErr result }
    {
        guarded!(self, self.watched.commit(self.alloc, h))
    }

    /// Tells when an activity that has begun ends.
    pub fn until<L: Ledger>(
        &mut self,
        id: u32,
        moment: u32,
        steps: &mut Steps<L>,
    ) -> Result<(), AllocError>
        requires { self.old.spoiled ≡ false → CanMeasure self.old.state id moment }
        ensures ok { OnOk result (self.new ≡ after (measured_to id moment self.old.state)) }
        ensures err { OnErr result (self.new.spoiled ≡ true) }
        ensures after_spoil { self.old.spoiled ≡ true → IsErr result }
    {
        guarded!(self, self.watched.until(self.alloc, id, moment, steps))
    }

    /// Takes back the commitment of all that starts after the present.
    pub fn withdraw(&mut self) -> Result<(), AllocError>
        ensures ok { OnOk result (self.new ≡ after (withdrawn self.old.state)) }
        ensures err { OnErr result (self.new.spoiled ≡ true) }
        ensures after_spoil { self.old.spoiled ≡ true → IsErr result }
    {
        guarded!(self, self.watched.withdraw(self.alloc))
    }

    /// Makes an id, above every live one, the next one again. It takes no memory.
    pub fn reset_next(&mut self, id: u32)
        requires unspoiled { self.old.spoiled ≡ false }
        requires least { (1 ≤ id) × All (IsIdBelow id) self.old.state.plan.activities }
        requires most { id ≤ self.old.state.next_id }
        ensures { self.new ≡ after (with_next id self.old.state) }
    {
        self.watched.state.next_id = id;
    }

    /// Marks the board as spoiled. It takes no memory.
    pub fn spoil(&mut self)
        ensures { self.new ≡ record self.old { spoiled = true } }
    {
        self.spoiled = true;
    }

    /// What stands.
    pub fn state(&self) -> &PlanState
        ensures value { result.now ≡ self.now.state }
        ensures whole { self.now.spoiled ≡ false → IsWhole result.now }
    {
        &self.watched.state
    }

    /// All that is wrong with it.
    pub fn conflicts(&self) -> &ConflictSet
        ensures { self.now.spoiled ≡ false → result.now ≡ conflicts_of self.now.state }
    {
        &self.watched.conflicts
    }

    pub(crate) fn watched(&self) -> &WatchedState
        ensures state { result.now.state ≡ self.now.state }
        ensures watched { self.now.spoiled ≡ false → IsWatched result.now }
    {
        &self.watched
    }

    /// Whether memory was wanting once.
    pub fn spoiled(&self) -> bool
        ensures { result ≡ self.now.spoiled }
    {
        self.spoiled
    }

    /// Where its memory is from.
    pub fn alloc(&self) -> Global {
        self.alloc
    }

    /// A board of the same plan state, with memory of its own.
    pub fn copy(&self, alloc: Global) -> Result<Board, AllocError>
        requires { self.now.spoiled ≡ false }
        ensures { IfOk result (λ b. b ≡ self.now) }
    {
        Ok(Board {
            alloc,
            watched: self.watched.copy(alloc)?,
            memory: Memory::new(alloc),
            spoiled: false,
        })
    }
}

//! A plan that is worked out on a board of its own, and the repairs that lead to it.
ghost use Rattle.std.specs.Prelude.{◌≡◌, false, IfOk, OnOk};

use crate::beam::{Aim, Ended};
use crate::branching::GivingUp;
use crate::failures::Failures;
use crate::hopeless::count_hopeless;
use crate::inserting::insert;
use crate::look::{Look, look_at};
use crate::marks::mark_of_plan;
use crate::mending::{keep_better, mend};
use crate::node::Node;
use crate::tries::Tries;
use crate::undo::{make_step, may_be_made};
use pl_board::Board;
use pl_cand::Proposal;
use pl_conflict::Conflict;
use std::alloc::{AllocError, Global};

/// A plan on a board of its own.
#[derive(Drop)]
pub(crate) struct Draft {
    pub(crate) board: Board,
    pub(crate) path: Vec<Proposal>,
    pub(crate) look: Look,
    /// The most repairs.
    turns: usize,
    /// How many plans one search by layers may look at.
    worlds: u32,
}

impl Draft {
    /// The plan of a board, with at most so many repairs to come.
    pub(crate) fn new(
        alloc: Global,
        board: &Board,
        turns: usize,
        worlds: u32,
    ) -> Result<Draft, AllocError>
        requires { board.now.spoiled ≡ false }
        ensures { IfOk result (λ d. d.board.spoiled ≡ false) }
    {
        let board = board.copy(alloc)?;
        let look = look_at(&board, mark_of_plan(board.plan()));
        Ok(Draft {
            board,
            path: Vec::new(alloc),
            look,
            turns,
            worlds,
        })
    }

    pub(crate) fn copy(&self, alloc: Global) -> Result<Draft, AllocError>
        requires { self.now.board.spoiled ≡ false }
        ensures { IfOk result (λ d. d.board.spoiled ≡ false) }
    {
        let path = Vec::from_slice(alloc, self.path.as_slice())?;
        Ok(Draft {
            board: self.board.copy(alloc)?,
            path,
            look: self.look,
            turns: self.turns,
            worlds: self.worlds,
        })
    }

    fn aim(&self, enough: u32, giving_up: GivingUp, worlds: u32) -> Aim {
        Aim {
            enough,
            repairs: self.turns.saturating_sub(self.path.len()),
            giving_up,
            worlds,
        }
    }

    // Makes a repair, if it may be made.
    fn take_step(&mut self, alloc: Global, repair: &Proposal) -> Result<(), AllocError>
        requires { self.old.board.spoiled ≡ false }
        ensures { OnOk result (self.new.board.spoiled ≡ false) }
    {
        if !may_be_made(&self.board, &repair.mv) {
            return Ok(());
        }
        make_step(alloc, &mut self.board, &repair.mv)?;
        self.path.push(*repair)?;
        Ok(())
    }

    /// Makes the repairs that lead to a plan.
    pub(crate) fn follow(&mut self, alloc: Global, node: &Node) -> Result<(), AllocError>
        requires { self.old.board.spoiled ≡ false }
        ensures { OnOk result (self.new.board.spoiled ≡ false) }
    {
        for repair in node.path.as_slice() {
            self.take_step(alloc, repair)?;
        }
        self.look = node.look;
        Ok(())
    }

    fn follow_best(&mut self, alloc: Global, best: Option<Node>) -> Result<(), AllocError>
        requires { self.old.board.spoiled ≡ false }
        ensures { OnOk result (self.new.board.spoiled ≡ false) }
    {
        match best {
            Some(node) => self.follow(alloc, &node),
            None => Ok(()),
        }
    }

    // Looks for repairs after which at most so many conflicts stand, open goals not counted.
    fn way_to_mend(
        &mut self,
        tries: &mut Tries,
        giving_up: GivingUp,
        enough: u32,
    ) -> Result<Ended, AllocError>
        requires { self.old.board.spoiled ≡ false }
        ensures { OnOk result (self.new.board.spoiled ≡ false) }
    {
        let mut from = Vec::new(tries.alloc);
        from.push(Node::start(tries.alloc, self.look))?;
        let aim = self.aim(enough, giving_up, self.worlds);
        mend(tries, &mut self.board, from.as_slice(), &aim)
    }

    fn follow_better(
        &mut self,
        alloc: Global,
        best: Option<Node>,
        other: Option<Node>,
    ) -> Result<(), AllocError>
        requires { self.old.board.spoiled ≡ false }
        ensures { OnOk result (self.new.board.spoiled ≡ false) }
    {
        let mut best = best;
        keep_better(&mut best, other);
        self.follow_best(alloc, best)
    }

    // Looks for such repairs that may give up any goal, and makes them. If there are none, makes those that lead to the best plan
    // found.
    fn mend_at_any_price(
        &mut self,
        tries: &mut Tries,
        enough: u32,
        best: Option<Node>,
    ) -> Result<(), AllocError>
        requires { self.old.board.spoiled ≡ false }
        ensures { OnOk result (self.new.board.spoiled ≡ false) }
    {
        match self.way_to_mend(tries, GivingUp::Any, enough)? {
            Ended::Found(node) => self.follow(tries.alloc, &node),
            Ended::Best(other) => self.follow_better(tries.alloc, best, other),
        }
    }

    /// Mends all conflicts but open goals and those that no repair can mend, or as many as it can. A goal is given up only if
    /// nothing else helps.
    pub(crate) fn mend_all(&mut self, tries: &mut Tries) -> Result<(), AllocError>
        requires { self.old.board.spoiled ≡ false }
        ensures { OnOk result (self.new.board.spoiled ≡ false) }
    {
        let hopeless = count_hopeless(tries.alloc, &self.board)?;
        if self.look.hard <= hopeless {
            return Ok(());
        }
        match self.way_to_mend(tries, GivingUp::Nothing, hopeless)? {
            Ended::Found(node) => self.follow(tries.alloc, &node),
            Ended::Best(best) => self.mend_at_any_price(tries, hopeless, best),
        }
    }

    /// Looks for repairs that serve the goal of a conflict, if it is due.
    pub(crate) fn way_to_serve(
        &mut self,
        tries: &mut Tries,
        failures: &Failures,
        conflict: &Conflict,
        giving_up: GivingUp,
    ) -> Result<Option<Node>, AllocError>
        requires { self.old.board.spoiled ≡ false }
        ensures { OnOk result (self.new.board.spoiled ≡ false) }
    {
        if tries.left == 0 || !failures.is_due(conflict.subject) {
            return Ok(None);
        }
        let worlds = failures.worlds_for(conflict.subject, self.worlds);
        let look = self.look;
        let aim = self.aim(look.hard, giving_up, worlds);
        insert(tries, &mut self.board, look, conflict, &aim)
    }

    // Serves the goal of a conflict, if there is a way.
    fn serve_one(
        &mut self,
        tries: &mut Tries,
        failures: &Failures,
        conflict: &Conflict,
    ) -> Result<(), AllocError>
        requires { self.old.board.spoiled ≡ false }
        ensures { OnOk result (self.new.board.spoiled ≡ false) }
    {
        let way = self.way_to_serve(tries, failures, conflict, GivingUp::Nothing)?;
        self.follow_best(tries.alloc, way)
    }

    /// Serves goals one by one. One for which there is no way leaves the plan as it was.
    pub(crate) fn serve(
        &mut self,
        tries: &mut Tries,
        failures: &Failures,
        goals: &[Conflict],
    ) -> Result<(), AllocError>
        requires { self.old.board.spoiled ≡ false }
        ensures { OnOk result (self.new.board.spoiled ≡ false) }
    {
        for conflict in goals {
            self.serve_one(tries, failures, conflict)?;
        }
        Ok(())
    }
}

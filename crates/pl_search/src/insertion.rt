ghost use Rattle.std.specs.Prelude.{◌≡◌, ◌≤◌, true, false, IfOk, IfSome, OnOk, OnErr, Some};
ghost use Rattle.pl_cand.specs.Proposals.{IsProposal};

use crate::confirming::confirm;
use crate::failures::Failures;
use crate::leftover::leftover_repair;
use crate::message::{Message, message_of};
use crate::planning::plan;
use crate::tries::Tries;
use pl_board::Board;
use pl_cand::{Chooser, Proposal};
use pl_choose::Least;
use std::alloc::{AllocError, Global};

/// Looks ahead: it serves goals one by one, keeps the repairs that do it, and proposes them turn by turn. Where it finds nothing it
/// proposes what [`Least`] does.
#[derive(Drop)]
pub struct Insertion {
    /// The most repairs for a message.
    turns: u32,
    /// The most plans that are looked at for a message.
    worlds: u32,
    /// The message that it answers, and how many repairs it proposed.
    message: Option<Message>,
    turn: u32,
    is_planned: bool,
    /// The repairs of its plan, the last first.
    path: Vec<Proposal>,
    tries: Tries,
    failures: Failures,
    /// How many plans may be looked at besides, in turns that its plan leaves unused.
    spare: u32,
}

impl Insertion {
    /// A chooser for rounds of so many repairs. It looks at no more than `worlds` plans for a message.
    pub fn new(alloc: Global, turns: u32, worlds: u32) -> Insertion {
        Insertion {
            turns,
            worlds,
            message: None,
            turn: 0,
            is_planned: false,
            path: Vec::new(alloc),
            tries: Tries::new(alloc),
            failures: Failures::none(alloc),
            spare: 0,
        }
    }

    // Begins anew where a message came since it was asked last.
    fn hear(&mut self, alloc: Global, board: &Board)
        requires { board.now.spoiled ≡ false }
    {
        let message = message_of(board);
        if self.message != Some(message) || self.turn >= self.turns {
            self.message = Some(message);
            self.turn = 0;
            self.is_planned = false;
            self.path = Vec::new(alloc);
            self.spare = self.worlds / 10;
            self.tries.begin(self.worlds - self.spare);
        }
    }

    // How many repairs it may still propose for the message.
    fn left(&self) -> u32 {
        self.turns.saturating_sub(self.turn)
    }

    fn plan_anew(&mut self, board: &Board) -> Result<(), AllocError>
        requires { board.now.spoiled ≡ false }
    {
        let turns = self.left() as usize;
        let worlds = worlds_for_one(self.worlds);
        self.path = plan(&mut self.tries, &mut self.failures, board, turns, worlds)?;
        self.is_planned = true;
        Ok(())
    }

    // The next repair of the plan, if it may be proposed.
    fn next(&mut self, alloc: Global, board: &Board) -> Result<Option<Proposal>, AllocError>
        requires { board.now.spoiled ≡ false }
        ensures { IfOk result (λ o. IfSome o (λ p. IsProposal board.now.state (Some p))) }
    {
        match self.path.pop() {
            Some(next) => confirm(alloc, board, &next),
            None => Ok(None),
        }
    }

    // The next repair of a plan that is made anew.
    fn next_anew(&mut self, alloc: Global, board: &Board) -> Result<Option<Proposal>, AllocError>
        requires { board.now.spoiled ≡ false }
        ensures { IfOk result (λ o. IfSome o (λ p. IsProposal board.now.state (Some p))) }
    {
        self.plan_anew(board)?;
        self.next(alloc, board)
    }

    // The next repair of the plan. If there is no plan yet, or its next repair may not be proposed, a new plan is made first.
    fn planned(&mut self, alloc: Global, board: &Board) -> Result<Option<Proposal>, AllocError>
        requires { board.now.spoiled ≡ false }
        ensures { IfOk result (λ o. IfSome o (λ p. IsProposal board.now.state (Some p))) }
    {
        let is_over = self.is_planned && self.path.is_empty();
        match self.next(alloc, board)? {
            Some(next) => Ok(Some(next)),
            None if is_over => Ok(None),
            None => self.next_anew(alloc, board),
        }
    }

    // A repair for a turn that the plan leaves unused.
    fn left_over(
        &mut self,
        alloc: Global,
        board: &mut Board,
    ) -> Result<Option<Proposal>, AllocError>
        requires { board.old.spoiled ≡ false }
        ensures legal { IfOk result (λ o. IfSome o (λ p. IsProposal board.old.state (Some p))) }
        ensures same { OnOk result (board.new ≡ board.old) }
    {
        self.tries.left = self.tries.left.saturating_add(self.spare);
        self.spare = 0;
        let left = self.left();
        match leftover_repair(&mut self.tries, board, left)? {
            Some(repair) => confirm(alloc, board, &repair),
            None => Ok(None),
        }
    }

    // What the plan proposes, or a repair for a turn that it leaves unused, if there is either.
    fn look_ahead(
        &mut self,
        alloc: Global,
        board: &mut Board,
    ) -> Result<Option<Proposal>, AllocError>
        requires { board.old.spoiled ≡ false }
        ensures legal { IfOk result (λ o. IfSome o (λ p. IsProposal board.old.state (Some p))) }
        ensures same { OnOk result (board.new ≡ board.old) }
    {
        self.hear(alloc, board);
        match self.planned(alloc, board)? {
            Some(next) => Ok(Some(next)),
            None => self.left_over(alloc, board),
        }
    }

    // The same, or else what `Least` proposes.
    fn find_or_least(
        &mut self,
        alloc: Global,
        board: &mut Board,
    ) -> Result<Option<Proposal>, AllocError>
        requires unspoiled { board.old.spoiled ≡ false }
        requires next_id { board.old.state.next_id ≤ 3999999000 }
        ensures legal { IfOk result (IsProposal board.old.state) }
        ensures same { OnOk result (board.new ≡ board.old) }
        ensures err { OnErr result (board.new.spoiled ≡ true) }
    {
        match self.look_ahead(alloc, board) {
            Ok(Some(proposal)) => Ok(Some(proposal)),
            Ok(None) => Least.propose(alloc, board),
            Err(fault) => {
                board.spoil();
                Err(fault)
            }
        }
    }
}

// How many plans one search by layers may look at, given how many all searches for a message may.
fn worlds_for_one(worlds: u32) -> u32 {
    worlds.saturating_mul(3) / 20
}

impl Chooser for Insertion {
    ghost use Rattle.pl_cand.specs.Proposals.{IsProposal};

    ghost picks = { λ before s p now. IsProposal s p };

    ghost drawn = { λ before now. Unit {0} };

    fn propose(
        &mut self,
        alloc: Global,
        board: &mut Board,
    ) -> Result<Option<Proposal>, AllocError> {
        if self.worlds == 0 {
            return Least.propose(alloc, board);
        }
        let found = self.find_or_least(alloc, board);
        self.turn = self.turn.saturating_add(1);
        found
    }
}

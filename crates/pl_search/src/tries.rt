//! What a search has seen and found, beside the board.
ghost use Rattle.std.specs.Prelude.{◌≡◌, ◌<◌, ◌+◌, OnOk, All, false, length};
ghost use Rattle.pl_search.specs.Undos.{MayBeMade};

use crate::look::{Look, look_at};
use crate::marks::mark_behind;
use crate::node::Step;
use crate::repeating::Place;
use pl_board::Board;
use pl_moves::trial_of;
use pl_plan::RepairMove;
use std::alloc::{AllocError, Global};
use std::collections::{BTreeMap, BTreeSet};

/// What a search works with, and how much it may still look at.
#[derive(Drop)]
pub(crate) struct Tries {
    pub(crate) alloc: Global,
    /// How many plans may still be looked at.
    pub(crate) left: u32,
    // What was seen of plans, by their marks.
    known: BTreeMap<u64, Look>,
    // Which repairs were chosen in turns left over, each by its place, by the marks of plan and turn.
    chosen: BTreeMap<u64, Place>,
    // The marks that the search at hand has come to.
    seen: BTreeSet<u64>,
    /// The plans that were found since this was emptied.
    pub(crate) found: Vec<Step>,
    // The places of those among them that are still to be looked at.
    places: Vec<usize>,
}

impl Tries {
    pub(crate) fn new(alloc: Global) -> Tries {
        Tries {
            alloc,
            left: 0,
            known: BTreeMap::new(alloc),
            chosen: BTreeMap::new(alloc),
            seen: BTreeSet::new(alloc),
            found: Vec::new(alloc),
            places: Vec::new(alloc),
        }
    }

    /// Begins anew, with so many plans to look at.
    pub(crate) fn begin(&mut self, worlds: u32) {
        self.left = worlds;
        self.forget_looks();
    }

    /// Forgets what was seen of plans, and the repairs that were chosen by it.
    pub(crate) fn forget_looks(&mut self) {
        self.known = BTreeMap::new(self.alloc);
        self.chosen = BTreeMap::new(self.alloc);
    }

    /// The place of the repair that was chosen for a plan and turn of this mark.
    pub(crate) fn chosen(&self, mark: u64) -> Option<Place> {
        match self.chosen.get(&mark) {
            Some(place) => Some(*place),
            None => None,
        }
    }

    /// Keeps the place of a repair that was chosen, if it is known.
    pub(crate) fn choose(&mut self, mark: u64, place: Option<Place>) -> Result<(), AllocError> {
        if let Some(place) = place {
            self.chosen.insert(mark, place)?;
        }
        Ok(())
    }

    /// Forgets what the search at hand came to.
    pub(crate) fn forget(&mut self) {
        self.seen = BTreeSet::new(self.alloc);
        self.found = Vec::new(self.alloc);
        self.places = Vec::new(self.alloc);
    }

    /// Notes that the search at hand has come to a plan of this mark.
    pub(crate) fn see(&mut self, mark: u64) -> Result<(), AllocError> {
        self.seen.insert(mark)?;
        Ok(())
    }

    fn add(&mut self, step: Step) -> Result<(), AllocError> {
        self.seen.insert(step.look.mark)?;
        self.found.push(step)?;
        Ok(())
    }

    // What was seen of a plan of this mark.
    fn known_look(&self, mark: u64) -> Option<Look> {
        match self.known.get(&mark) {
            Some(look) => Some(*look),
            None => None,
        }
    }

    // Notes a plan that is still to be looked at, if more may be looked at. Answers whether it did.
    fn add_fresh(&mut self, step: Step) -> Result<bool, AllocError> {
        if self.places.len() >= self.left as usize {
            return Ok(false);
        }
        let place = self.found.len();
        self.places.push(place)?;
        self.add(step)?;
        Ok(true)
    }

    // Notes a plan, unless the search at hand has come to it before. Answers whether it is still to be looked at.
    fn note_step(&mut self, step: Step) -> Result<bool, AllocError> {
        if self.seen.contains(&step.look.mark) {
            return Ok(false);
        }
        match self.known_look(step.look.mark) {
            Some(look) => {
                self.add(Step { look, ..step })?;
                Ok(false)
            }
            None => self.add_fresh(step),
        }
    }

    /// Notes the plan that a repair leads to, and gathers the repair's move if this plan is still to be looked at. The step has
    /// what was seen before the repair.
    pub(crate) fn note_repair(
        &mut self,
        board: &Board,
        step: Step,
        fresh: &mut Vec<RepairMove>,
    ) -> Result<(), AllocError>
        requires unspoiled { board.now.spoiled ≡ false }
        requires made { MayBeMade board.now.state step.repair.mv }
        requires others { All (MayBeMade board.now.state) fresh.old.items }
        ensures { OnOk result (All (MayBeMade board.now.state) fresh.new.items) }
    {
        let mv = step.repair.mv;
        let trial = trial_of(self.alloc, board.state(), &mv)?;
        if !self.note_step(step.with_mark(mark_behind(step.look.mark, &trial)))? {
            return Ok(());
        }
        fresh.push(mv)?;
        Ok(())
    }

    // Keeps what was seen of the plan at a place. That uses up one of the plans that may be looked at.
    fn keep(&mut self, place: usize, look: Look) -> Result<(), AllocError>
        requires place { place < length self.old.found.items }
        requires left { 0 < self.old.left }
        ensures { OnOk result (self.new.left + 1 ≡ self.old.left) }
    {
        let step = self.found[place];
        self.found[place] = Step { look, ..step };
        self.left -= 1;
        self.known.insert(look.mark, look)?;
        Ok(())
    }

    /// Looks at the plan that the fresh move of this number led to, which stands on the board now.
    pub(crate) fn look(&mut self, board: &Board, number: usize) -> Result<(), AllocError> {
        if self.left == 0 {
            return Ok(());
        }
        if number >= self.places.len() {
            return Ok(());
        }
        let place = self.places[number];
        if place >= self.found.len() {
            return Ok(());
        }
        let step = self.found[place];
        self.keep(place, look_at(board, step.look.mark))
    }

    /// Ends the looking at fresh plans.
    pub(crate) fn end_look(&mut self) {
        self.places = Vec::new(self.alloc);
    }
}

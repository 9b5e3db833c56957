ghost use Rattle.std.specs.Prelude.{◌≡◌, ◌≤◌, true, false, Some, IfOk, OnOk, OnErr};
ghost use Rattle.rand_pcg.specs.Lcg.{started, increment_of};
ghost use Rattle.rand_pcg.specs.Pcg.{multiplier_64};
ghost use Rattle.pl_cand.specs.Proposals.{IsProposal, mended};
ghost use Rattle.pl_choose.specs.Found.{AreFirst};
ghost use Rattle.pl_choose.specs.Picked.{behind};
ghost use Rattle.pl_choose.specs.Picks.{word_of, after_word, is_random, draw_of, pick_by, random_pick, seeded_pick, seeded_after};

use crate::draw::Draw;
use crate::least::{choose_fewest, choose_least, make_if_mending};
use crate::picking::pick;
use crate::purpose::Purpose;
use crate::repairs::Repairs;
use crate::search::first_repairs;
use pl_board::Board;
use pl_cand::{Chooser, Proposal};
use rand_core::utils::NextWord;
use rand_pcg::Lcg64Xsh32;
use std::alloc::{AllocError, Global};
use std::marker::Model;

/// Draws a random word for each choice. For one word in eight it chooses by chance, else as [`crate::Least`] does. Contracts see it
/// as its generator.
#[derive(Drop)]
pub struct Seeded {
    generator: Lcg64Xsh32,
}

impl Model for Seeded {
    ghost use Rattle.rand_pcg.specs.Lcg.{Lcg};

    ghost Value = { Lcg };

    ghost view = { λ s. s.generator };
}

impl Seeded {
    /// A chooser that draws the words of this seed.
    pub fn new(seed: u64) -> Seeded
        ensures { result ≡ started 64 multiplier_64 seed (increment_of 64 0) }
    {
        Seeded {
            generator: Lcg64Xsh32::new(seed, 0),
        }
    }

    // The next word.
    #[tactic(auto, unfolding(crate::specs::Picks::word_of, crate::specs::Picks::after_word))]
    fn word(&mut self) -> u32
        ensures word { result ≡ word_of self.old }
        ensures after { self.new ≡ after_word self.old }
    {
        self.generator.next_word()
    }

    // Draws one word, or three.
    #[tactic(auto, unfolding(crate::specs::Picks::draw_of, crate::specs::Picks::seeded_after))]
    fn draw(&mut self) -> Draw
        ensures draw { result ≡ draw_of self.old }
        ensures after { self.new ≡ seeded_after self.old }
    {
        if !is_random(self.word()) {
            return Draw::AsLeast;
        }
        let conflict = self.word();
        let repair = self.word();
        Draw::AtRandom { conflict, repair }
    }

    /// Draws, and makes the repair that is chosen. `first` is the first conflict that has a legal candidate, with its legal
    /// candidates.
    #[tactic(auto, unfolding(crate::specs::Picks::seeded_pick))]
    fn mend_from(
        &mut self,
        alloc: Global,
        board: &mut Board,
        first: &Repairs,
    ) -> Result<Option<Proposal>, AllocError>
        requires unspoiled { board.old.spoiled ≡ false }
        requires next_id { board.old.state.next_id ≤ 3999999000 }
        requires first { AreFirst board.old.state (Some first.now) }
        ensures picks { IfOk result (λ p. p ≡ seeded_pick board.old.state self.old) }
        ensures made { IfOk result (λ p. board.new ≡ mended p board.old) }
        ensures after { self.new ≡ seeded_after self.old }
        ensures err { OnErr result (board.new.spoiled ≡ true) }
    {
        let draw = self.draw();
        mend_by(alloc, board, draw, first)
    }
}

#[tactic(auto, unfolding(crate::specs::Picks::is_random))]
fn is_random(word: u32) -> bool
    ensures { result ≡ is_random word }
{
    word % 8 == 0
}

// The candidate that two random words pick. It is made if that is the purpose.
fn choose_at_random(
    alloc: Global,
    board: &mut Board,
    conflict: u32,
    repair: u32,
    purpose: Purpose,
) -> Result<Option<Proposal>, AllocError>
    requires unspoiled { board.old.spoiled ≡ false }
    requires next_id { board.old.state.next_id ≤ 3999999000 }
    ensures picks { IfOk result (λ p. p ≡ random_pick board.old.state conflict repair) }
    ensures board { IfOk result (λ p. board.new ≡ behind purpose p board.old) }
    ensures err { OnErr result (board.new.spoiled ≡ true) }
{
    match pick(alloc, board, conflict, repair) {
        Ok(Some(proposal)) => make_if_mending(alloc, board, proposal, purpose),
        Ok(None) => Ok(None),
        Err(fault) => {
            board.spoil();
            Err(fault)
        }
    }
}

// Makes the repair that is chosen by what was drawn. `first` is the first conflict that has a legal candidate, with its legal
// candidates.
fn mend_by(
    alloc: Global,
    board: &mut Board,
    draw: Draw,
    first: &Repairs,
) -> Result<Option<Proposal>, AllocError>
    requires unspoiled { board.old.spoiled ≡ false }
    requires next_id { board.old.state.next_id ≤ 3999999000 }
    requires first { AreFirst board.old.state (Some first.now) }
    ensures picks { IfOk result (λ p. p ≡ pick_by board.old.state draw) }
    ensures made { IfOk result (λ p. board.new ≡ mended p board.old) }
    ensures err { OnErr result (board.new.spoiled ≡ true) }
{
    match draw {
        Draw::AsLeast => choose_fewest(alloc, board, first, Purpose::Mend),
        Draw::AtRandom { conflict, repair } => {
            choose_at_random(alloc, board, conflict, repair, Purpose::Mend)
        }
    }
}

fn propose_by(alloc: Global, board: &mut Board, draw: Draw) -> Result<Option<Proposal>, AllocError>
    requires unspoiled { board.old.spoiled ≡ false }
    requires next_id { board.old.state.next_id ≤ 3999999000 }
    ensures picks { IfOk result (λ p. p ≡ pick_by board.old.state draw) }
    ensures same { OnOk result (board.new ≡ board.old) }
    ensures err { OnErr result (board.new.spoiled ≡ true) }
{
    match draw {
        Draw::AsLeast => choose_least(alloc, board, Purpose::Propose),
        Draw::AtRandom { conflict, repair } => {
            choose_at_random(alloc, board, conflict, repair, Purpose::Propose)
        }
    }
}

impl Chooser for Seeded {
    ghost use Rattle.std.specs.Prelude.{◌≡◌};
    ghost use Rattle.pl_choose.specs.Picks.{seeded_pick, seeded_after};

    ghost picks = { λ before s p now. (p ≡ seeded_pick s before) × (now ≡ seeded_after before) };

    ghost drawn = { λ before now. now ≡ seeded_after before };

    /// The words are drawn before the plan is looked at, so they are drawn whatever the answer.
    #[tactic(auto, unfolding(crate::specs::Picks::seeded_pick))]
    fn propose(&mut self, alloc: Global, board: &mut Board) -> Result<Option<Proposal>, AllocError>
        requires unspoiled { board.old.spoiled ≡ false }
        requires next_id { board.old.state.next_id ≤ 3999999000 }
        ensures picks { IfOk result (λ p. (p ≡ seeded_pick board.old.state self.old) × (self.new ≡ seeded_after self.old)) }
        ensures legal { IfOk result (IsProposal board.old.state) }
        ensures same { OnOk result (board.new ≡ board.old) }
        ensures err { OnErr result (board.new.spoiled ≡ true) }
        ensures drawn { self.new ≡ seeded_after self.old }
    {
        let draw = self.draw();
        propose_by(alloc, board, draw)
    }

    /// No word is drawn before a conflict is found that has a legal candidate.
    fn mend(&mut self, alloc: Global, board: &mut Board) -> Result<Option<Proposal>, AllocError> {
        match first_repairs(alloc, board) {
            Ok(Some(first)) => self.mend_from(alloc, board, &first),
            Ok(None) => Ok(None),
            Err(fault) => {
                board.spoil();
                Err(fault)
            }
        }
    }
}

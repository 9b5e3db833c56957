ghost use Rattle.std.specs.Prelude.{◌≡◌, ◌<◌, ◌≤◌, ◌+◌, ◌*◌, ◌/◌, ◌^◌, true, false, suc, is_some, [], ◌∷◌, length, take, drop, OnOk, OnErr};
ghost use Rattle.pl_points.specs.Points.{leaving, RiseFrom, SmallFrom, AreSmall, ArePoints, ahead_of, put, IsNear};
ghost use Rattle.pl_blocks.specs.Blocks.{together, blocks_from, change_of, AreSized};

use crate::block::Block;
use crate::finding::{LATE, past_near};
use crate::mending::merge_at;
use crate::summing::sum_before;
use pl_lists::Copied;
use pl_points::{Ledger, Points, Steps, leaving, place_of};
use std::alloc::{AllocError, Global};
use std::marker::Model;

// A row of blocks stays shorter, so that its points are fewer than 2^32.
const MOST_BLOCKS: usize = 0x0400_0000;

/// Points in a row of blocks of at most 64, each with its sum and the least and greatest sum of its
/// fronts. Two neighbours hold more than 32 points together.
#[derive(Drop)]
pub struct BlockPoints {
    alloc: Global,
    blocks: Vec<Block>,
    // What all deltas add up to.
    total: i64,
}

impl Model for BlockPoints {
    ghost use Rattle.std.specs.Prelude.{ℕ, ℤ, List};
    ghost use Rattle.pl_blocks.specs.Blocks.{AreBlocks};

    ghost Value = { List (List (ℕ × ℤ)) };

    ghost view = { λ p. p.blocks.items };

    ghost invariant = { λ p. AreBlocks p.blocks.items p.total };
}

impl BlockPoints {
    /// No points yet.
    pub fn new(alloc: Global) -> BlockPoints
        ensures { result ≡ [] }
    {
        BlockPoints {
            alloc,
            blocks: Vec::new(alloc),
            total: 0,
        }
    }
}

// The first point of the blocks after which the sum is outside. It reads the summaries, and the
// points of the block that has the answer.
fn leaving_blocks<L: Ledger>(
    blocks: &[Block],
    before: i64,
    least: i64,
    most: i64,
    steps: &mut Steps<L>,
) -> Option<(u32, i64)>
    requires sized { AreSized blocks.now }
    requires rising { RiseFrom 0 (together blocks.now) }
    requires small { SmallFrom before (together blocks.now) }
    ensures first { result ≡ leaving least most before (together blocks.now) }
    ensures more { steps.old ≤ steps.new }
    ensures cost { steps.new + ahead_of (blocks_from blocks.now) result ≤ steps.old + length blocks.now + 65 }
{
    let mut sum = before;
    for block in blocks {
        steps.pass();
        if sum + block.least() < least || most < sum + block.greatest() {
            let here = steps.near();
            let found = leaving(block.points(), sum, least, most, steps);
            steps.stand_at(here);
            return found;
        }
        sum += block.sum();
    }
    None
}

// Whether the block at the place is one of the last few, and the summaries of these from there on say that no sum in
// them is outside. All deltas of the row add up to `total`.
fn ends_calm(blocks: &[Block], place: usize, total: i64, least: i64, most: i64) -> bool
    requires there { place < length blocks.now }
    requires points { ArePoints (together blocks.now) }
    requires total { total ≡ change_of (together blocks.now) }
    ensures { result ≡ true → is_some (leaving least most (change_of (together (take place blocks.now))) (together (drop place blocks.now))) ≡ false }
{
    let count = blocks.len();
    if place < count.saturating_sub(LATE) {
        return false;
    }
    let mut start = total;
    for here in (place..count).rev() {
        let block = &blocks[here];
        start -= block.sum();
        if !block.is_calm(start, least, most) {
            return false;
        }
    }
    true
}

// The first point of the row.
fn begin<L: Ledger>(
    alloc: Global,
    blocks: &mut Vec<Block>,
    at: u32,
    delta: i64,
    steps: &mut Steps<L>,
) -> Result<(), AllocError>
    requires none { blocks.old.items ≡ [] }
    requires near { IsNear delta }
    ensures ok { OnOk result (together blocks.new.items ≡ put at delta []) }
    ensures sized { OnOk result (AreSized blocks.new.items) }
    ensures one { OnOk result (length blocks.new.items ≤ 1) }
    ensures err { OnErr result (blocks.new.items ≡ []) }
    ensures more { steps.old ≤ steps.new }
    ensures cost { steps.new ≤ steps.old + 1 }
{
    if delta == 0 {
        return Ok(());
    }
    let mut points = Vec::new(alloc);
    points.push((at, delta))?;
    blocks.push(Block::new(points, steps))?;
    Ok(())
}

impl Points for BlockPoints {
    ghost points = { together };

    ghost ahead = { blocks_from };

    ghost parts = { λ n. 2 * n / 33 + 1 };

    ghost change_steps = { 100 };

    ghost look_steps = { 91 };

    ghost search_steps = { 156 };

    fn add<L: Ledger>(
        &mut self,
        at: u32,
        delta: i64,
        steps: &mut Steps<L>,
    ) -> Result<(), AllocError> {
        steps.tick();
        let count = self.blocks.len();
        if count + 1 >= MOST_BLOCKS {
            return Err(AllocError);
        }
        if count == 0 {
            begin(self.alloc, &mut self.blocks, at, delta, steps)?;
            self.total = delta;
            return Ok(());
        }
        let place = past_near(&self.blocks, at, steps).min(count - 1);
        merge_at(self.alloc, &mut self.blocks, place, at, delta, steps)?;
        self.total += delta;
        Ok(())
    }

    fn first_from<L: Ledger>(&self, at: u32, steps: &mut Steps<L>) -> Option<(u32, i64)> {
        steps.tick();
        let place = past_near(&self.blocks, at, steps);
        steps.stand_at(place);
        if place == self.blocks.len() {
            return None;
        }
        let points = self.blocks[place].points();
        let count = place_of(points, at);
        Some(points[count])
    }

    fn first_outside<L: Ledger>(
        &self,
        from: u32,
        before: i64,
        least: i64,
        most: i64,
        steps: &mut Steps<L>,
    ) -> Option<(u32, i64)> {
        steps.tick();
        let place = past_near(&self.blocks, from, steps);
        if place == self.blocks.len() {
            return None;
        }
        if ends_calm(&self.blocks, place, self.total, least, most) {
            steps.stand_at(place);
            return None;
        }
        let block = &self.blocks[place];
        let (count, skipped) = block.passed(u64::from(from), steps);
        let start = before - skipped;
        let found = block.leaving_from(count, start, before, least, most, steps);
        steps.stand_at(place);
        if found.is_some() {
            return found;
        }
        let sum = start + block.sum();
        leaving_blocks(&self.blocks[place + 1..], sum, least, most, steps)
    }

    fn sum_to<L: Ledger>(&self, at: u32, steps: &mut Steps<L>) -> i64 {
        steps.tick();
        let place = past_near(&self.blocks, at, steps);
        steps.stand_at(place);
        let before = sum_before(&self.blocks, place, self.total, steps);
        if place == self.blocks.len() {
            return before;
        }
        before + self.blocks[place].passed(u64::from(at) + 1, steps).1
    }

    fn len(&self) -> u32 {
        let mut count = 0;
        for block in &self.blocks {
            count += block.points().len() as u32;
        }
        count
    }
}

impl Copied for BlockPoints {
    fn copy(&self, alloc: Global) -> Result<BlockPoints, AllocError> {
        let mut blocks = Vec::new(alloc);
        for block in &self.blocks {
            blocks.push(block.copy(alloc)?)?;
        }
        Ok(BlockPoints {
            alloc,
            blocks,
            total: self.total,
        })
    }
}

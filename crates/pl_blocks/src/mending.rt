ghost use Rattle.std.specs.Prelude.{◌≡◌, ◌<◌, ◌≤◌, ◌+◌, ◌-◌, true, suc, [], ◌∷◌, ◌++◌, length, take, drop, slice_index_or, OnOk, OnErr};
ghost use Rattle.pl_points.specs.Points.{merged, IsNear};
ghost use Rattle.pl_blocks.specs.Mending.{Fit, IsMended};

use crate::block::Block;
use pl_points::{Ledger, Steps};
use std::alloc::{AllocError, Global};

// Two neighbours with no more points than this become one block.
const FEW: usize = 32;

const MOST: usize = 64;
// Stands for a neighbour where there is none.
const ENOUGH: usize = 33;

// A step for each block that moves.
fn count_moved<L: Ledger>(count: usize, steps: &mut Steps<L>)
    ensures { steps.new ≡ steps.old + count }
{
    for moved in 0..count {
        let _ = moved;
        steps.tick();
    }
}

// Puts one block in the place of the two that begin at the place.
fn put_over_two(blocks: &mut Vec<Block>, place: usize, block: Block)
    requires { suc place < length blocks.old.items }
    ensures { blocks.new.items ≡ take place blocks.old.items ++ block ∷ drop (suc (suc place)) blocks.old.items }
{
    blocks.remove(place);
    blocks[place] = block;
}

// Puts two blocks in the place of one.
fn put_two(
    blocks: &mut Vec<Block>,
    place: usize,
    first: Block,
    second: Block,
) -> Result<(), AllocError>
    requires { place < length blocks.old.items }
    ensures ok { OnOk result (blocks.new.items ≡ take place blocks.old.items ++ first ∷ second ∷ drop (suc place) blocks.old.items) }
    ensures err { OnErr result (blocks.new.items ≡ blocks.old.items) }
{
    blocks.insert(place, first)?;
    blocks[place + 1] = second;
    Ok(())
}

// The points in two blocks, where they are too many for one. The first keeps no more memory than it takes: most points come behind it.
fn split<L: Ledger>(
    alloc: Global,
    blocks: &mut Vec<Block>,
    place: usize,
    mut points: Vec<(u32, i64)>,
    steps: &mut Steps<L>,
) -> Result<(), AllocError>
    requires fit { Fit blocks.old.items place points.items }
    requires many { 64 < length points.items }
    ensures ok { OnOk result (IsMended blocks.old.items place points.items blocks.new.items) }
    ensures err { OnErr result (blocks.new.items ≡ blocks.old.items) }
    ensures more { steps.old ≤ steps.new }
    ensures cost { steps.new ≤ steps.old + 65 }
{
    let behind = Vec::from_slice(alloc, &points[FEW..])?;
    points.truncate(FEW);
    points.shrink_to_fit();
    let first = Block::new(points, steps);
    let second = Block::new(behind, steps);
    put_two(blocks, place, first, second)
}

// The points and those of the block before, in one block.
fn join_before<L: Ledger>(
    alloc: Global,
    blocks: &mut Vec<Block>,
    place: usize,
    points: Vec<(u32, i64)>,
    steps: &mut Steps<L>,
) -> Result<(), AllocError>
    requires fit { Fit blocks.old.items place points.items }
    requires later { 0 < place }
    requires some { 0 < length points.items }
    requires few { length (slice_index_or blocks.old.items (place - 1) []) + length points.items ≤ 32 }
    ensures ok { OnOk result (IsMended blocks.old.items place points.items blocks.new.items) }
    ensures err { OnErr result (blocks.new.items ≡ blocks.old.items) }
    ensures more { steps.old ≤ steps.new }
    ensures cost { steps.new ≤ steps.old + 65 }
{
    let mut all = Vec::from_slice(alloc, blocks[place - 1].points())?;
    all.extend_from_slice(&points)?;
    let block = Block::new(all, steps);
    put_over_two(blocks, place - 1, block);
    Ok(())
}

// The points and those of the block behind, in one block.
fn join_behind<L: Ledger>(
    blocks: &mut Vec<Block>,
    place: usize,
    mut points: Vec<(u32, i64)>,
    steps: &mut Steps<L>,
) -> Result<(), AllocError>
    requires fit { Fit blocks.old.items place points.items }
    requires there { suc place < length blocks.old.items }
    requires some { 0 < length points.items }
    requires few { length points.items + length (slice_index_or blocks.old.items (suc place) []) ≤ 32 }
    ensures ok { OnOk result (IsMended blocks.old.items place points.items blocks.new.items) }
    ensures err { OnErr result (blocks.new.items ≡ blocks.old.items) }
    ensures more { steps.old ≤ steps.new }
    ensures cost { steps.new ≤ steps.old + 65 }
{
    points.extend_from_slice(blocks[place + 1].points())?;
    let block = Block::new(points, steps);
    put_over_two(blocks, place, block);
    Ok(())
}

// How many points the block before has, where there is one.
fn before_count(blocks: &[Block], place: usize) -> usize
    requires { place < length blocks.now }
    ensures first { place ≡ 0 → result ≡ 33 }
    ensures most { result ≤ 64 }
    ensures later { 0 < place → result ≡ length (slice_index_or blocks.now (place - 1) []) }
{
    if place == 0 {
        ENOUGH
    } else {
        blocks[place - 1].points().len()
    }
}

// How many points the block behind has, where there is one.
fn behind_count(blocks: &[Block], place: usize) -> usize
    requires { place < length blocks.now }
    ensures last { length blocks.now ≤ suc place → result ≡ 33 }
    ensures most { result ≤ 64 }
    ensures earlier { suc place < length blocks.now → result ≡ length (slice_index_or blocks.now (suc place) []) }
{
    if place + 1 < blocks.len() {
        blocks[place + 1].points().len()
    } else {
        ENOUGH
    }
}

// Puts the points in the place of the block. A block that is left with few is joined to a
// neighbour, and too many make two blocks.
fn mend<L: Ledger>(
    alloc: Global,
    blocks: &mut Vec<Block>,
    place: usize,
    points: Vec<(u32, i64)>,
    steps: &mut Steps<L>,
) -> Result<(), AllocError>
    requires { Fit blocks.old.items place points.items }
    ensures ok { OnOk result (IsMended blocks.old.items place points.items blocks.new.items) }
    ensures err { OnErr result (blocks.new.items ≡ blocks.old.items) }
    ensures more { steps.old ≤ steps.new }
    ensures cost { steps.new ≤ steps.old + length blocks.old.items + 65 }
{
    let count = points.len();
    if count == 0 {
        count_moved(blocks.len() - place, steps);
        blocks.remove(place);
        return Ok(());
    }
    if count > MOST {
        count_moved(blocks.len() - place, steps);
        return split(alloc, blocks, place, points, steps);
    }
    if before_count(blocks, place) + count <= FEW {
        count_moved(blocks.len() - place, steps);
        return join_before(alloc, blocks, place, points, steps);
    }
    if count + behind_count(blocks, place) <= FEW {
        count_moved(blocks.len() - place, steps);
        return join_behind(blocks, place, points, steps);
    }
    blocks[place] = Block::new(points, steps);
    Ok(())
}

// Whether one point more or less makes nothing else of the row than a longer or shorter block.
fn stays(blocks: &[Block], place: usize) -> bool
    requires { place < length blocks.now }
    ensures some { result ≡ true → 1 < length (slice_index_or blocks.now place []) }
    ensures few { result ≡ true → length (slice_index_or blocks.now place []) < 64 }
    ensures later { result ≡ true → 0 < place → 33 < length (slice_index_or blocks.now (place - 1) []) + length (slice_index_or blocks.now place []) }
    ensures earlier { result ≡ true → suc place < length blocks.now → 33 < length (slice_index_or blocks.now place []) + length (slice_index_or blocks.now (suc place) []) }
{
    let count = blocks[place].points().len();
    if count <= 1 || MOST <= count {
        return false;
    }
    let before = before_count(blocks, place);
    let behind = behind_count(blocks, place);
    FEW + 1 < before + count && FEW + 1 < count + behind
}

/// Merges the delta into the block at the place, in its place where that needs no other block.
pub(crate) fn merge_at<L: Ledger>(
    alloc: Global,
    blocks: &mut Vec<Block>,
    place: usize,
    at: u32,
    delta: i64,
    steps: &mut Steps<L>,
) -> Result<(), AllocError>
    requires delta { IsNear delta }
    requires fit { Fit blocks.old.items place (merged at delta (slice_index_or blocks.old.items place [])) }
    ensures ok { OnOk result (IsMended blocks.old.items place (merged at delta (slice_index_or blocks.old.items place [])) blocks.new.items) }
    ensures err { OnErr result (blocks.new.items ≡ blocks.old.items) }
    ensures more { steps.old ≤ steps.new }
    ensures cost { steps.new ≤ steps.old + length blocks.old.items + 65 }
{
    if stays(blocks, place) {
        return blocks[place].merge_in(at, delta, steps);
    }
    let points = blocks[place].merged(alloc, at, delta)?;
    mend(alloc, blocks, place, points, steps)
}

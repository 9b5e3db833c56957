ghost use Rattle.std.specs.Prelude.{◌≡◌, ◌<◌, ◌≤◌, ◌+◌, ◌^◌, true, suc, length, take, drop, IfSome};
ghost use Rattle.pl_lists.specs.Lists.{front, back};
ghost use Rattle.pl_points.specs.Points.{RiseFrom};
ghost use Rattle.pl_blocks.specs.Blocks.{together, is_past, AreSized, ArePast};

use crate::block::Block;
use pl_points::{Ledger, Steps};

/// So many blocks at the end of a row are looked at one by one, since most of what is sought is late.
pub(crate) const LATE: usize = 8;

// How many blocks lie whole before the moment: a step for each that it looks at.
fn past_count<L: Ledger>(blocks: &[Block], at: u32, steps: &mut Steps<L>) -> usize
    requires few { length blocks.now < 2 ^ 26 }
    requires sized { AreSized blocks.now }
    requires rising { RiseFrom 0 (together blocks.now) }
    ensures bound { result ≤ length blocks.now }
    ensures before { take result blocks.now ≡ front (is_past at) blocks.now }
    ensures rest { drop result blocks.now ≡ back (is_past at) blocks.now }
    ensures more { steps.old ≤ steps.new }
    ensures cost { steps.new ≤ steps.old + 26 }
{
    let mut low = 0;
    let mut high = blocks.len();
    'halves: while low < high {
        steps.tick();
        let middle = low + (high - low) / 2;
        if blocks[middle].is_past(u64::from(at)) {
            low = middle + 1;
        } else {
            high = middle;
        }
    }
    low
}

// Whether the blocks up to this place are those that lie whole before the moment.
fn is_last_past(blocks: &[Block], place: usize, at: u32) -> bool
    requires sized { AreSized blocks.now }
    requires rising { RiseFrom 0 (together blocks.now) }
    ensures bound { result ≡ true → place < length blocks.now }
    ensures before { result ≡ true → take (suc place) blocks.now ≡ front (is_past at) blocks.now }
    ensures rest { result ≡ true → drop (suc place) blocks.now ≡ back (is_past at) blocks.now }
{
    let moment = u64::from(at);
    if place >= blocks.len() {
        return false;
    }
    if !blocks[place].is_past(moment) {
        return false;
    }
    if place + 1 == blocks.len() {
        return true;
    }
    !blocks[place + 1].is_past(moment)
}

// How many blocks lie whole before the moment, if the last few show it.
fn past_late(blocks: &[Block], at: u32) -> Option<usize>
    requires sized { AreSized blocks.now }
    requires rising { RiseFrom 0 (together blocks.now) }
    ensures { IfSome result (ArePast at blocks.now) }
{
    let moment = u64::from(at);
    let count = blocks.len();
    for behind in 0..LATE {
        if behind == count {
            return Some(0);
        }
        if blocks[count - behind - 1].is_past(moment) {
            return Some(count - behind);
        }
    }
    None
}

/// How many blocks lie whole before the moment, found at once where they are all or all but a few,
/// and where the walk stands in the block behind them or in the last of them.
pub(crate) fn past_near<L: Ledger>(blocks: &[Block], at: u32, steps: &mut Steps<L>) -> usize
    requires few { length blocks.now < 2 ^ 26 }
    requires sized { AreSized blocks.now }
    requires rising { RiseFrom 0 (together blocks.now) }
    ensures bound { result ≤ length blocks.now }
    ensures before { take result blocks.now ≡ front (is_past at) blocks.now }
    ensures rest { drop result blocks.now ≡ back (is_past at) blocks.now }
    ensures more { steps.old ≤ steps.new }
    ensures cost { steps.new ≤ steps.old + 26 }
{
    if let Some(count) = past_late(blocks, at) {
        steps.tick();
        return count;
    }
    let near = steps.near();
    let earlier = near.wrapping_sub(1);
    if is_last_past(blocks, earlier, at) {
        steps.tick();
        return earlier + 1;
    }
    if is_last_past(blocks, near, at) {
        steps.tick();
        return near + 1;
    }
    past_count(blocks, at, steps)
}

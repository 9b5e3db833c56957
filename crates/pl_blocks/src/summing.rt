ghost use Rattle.std.specs.Prelude.{◌≡◌, ◌≤◌, ◌+◌, ◌-◌, pos, min, length, take};
ghost use Rattle.pl_points.specs.Points.{AreNear, ArePoints};
ghost use Rattle.pl_blocks.specs.Blocks.{together, change_of};

use crate::block::Block;
use pl_points::{Ledger, Steps};

// What the blocks add up to: a step for each.
fn sum_of<L: Ledger>(blocks: &[Block], steps: &mut Steps<L>) -> i64
    requires near { AreNear (pos 0) (together blocks.now) }
    ensures sum { result ≡ change_of (together blocks.now) }
    ensures cost { steps.new ≡ steps.old + length blocks.now }
{
    let mut sum: i64 = 0;
    for block in blocks {
        steps.tick();
        sum += block.sum();
    }
    sum
}

/// What the blocks before the place add up to, in a row whose blocks all add up to `total`: from the
/// end that is nearer, a step for each block that it passes.
pub(crate) fn sum_before<L: Ledger>(
    blocks: &[Block],
    place: usize,
    total: i64,
    steps: &mut Steps<L>,
) -> i64
    requires there { place ≤ length blocks.now }
    requires points { ArePoints (together blocks.now) }
    requires total { total ≡ change_of (together blocks.now) }
    ensures sum { result ≡ change_of (together (take place blocks.now)) }
    ensures more { steps.old ≤ steps.new }
    ensures cost { steps.new ≤ steps.old + min place (length blocks.now - place) }
{
    let behind = blocks.len() - place;
    if place < behind {
        return sum_of(&blocks[..place], steps);
    }
    let rest = sum_of(&blocks[place..], steps);
    total - rest
}

ghost use Rattle.pl_blocks.specs.Laws.{ShiftsAreCheap, DoubleWalksAreCheap};

use crate::blocks::BlockPoints;
use pl_points::Points;

/// The laws of the steps that changes of block points take, for proofs to rest on. It does nothing.
pub fn laws_of_steps()
    ensures shifts { ShiftsAreCheap ⟦<BlockPoints as Points>⟧.parts ⟦<BlockPoints as Points>⟧.change_steps ⟦<BlockPoints as Points>⟧.look_steps ⟦<BlockPoints as Points>⟧.search_steps }
    ensures double_walks { DoubleWalksAreCheap ⟦<BlockPoints as Points>⟧.parts ⟦<BlockPoints as Points>⟧.change_steps ⟦<BlockPoints as Points>⟧.look_steps ⟦<BlockPoints as Points>⟧.search_steps }
{}

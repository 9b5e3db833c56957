ghost use Rattle.std.specs.Prelude.{◌≡◌, ◌<◌, ◌≤◌, ◌-◌, ◌≤ℤ◌, ◌∷◌, [], ◌++◌, pos, negsuc, length, IfOk, OnOk, OnErr};
ghost use Rattle.pl_stn.specs.Nets.{IsWellFormed, edges_to_origin};

use crate::net::{Edge, Net};
use pl_lists::Items;
use std::alloc::{AllocError, Global};

impl Net {
    /// A net that says no more than that no point lies before the origin.
    pub fn new(alloc: Global, points: u32) -> Result<Net, AllocError>
        requires some { 0 < points }
        requires few { points ≤ 20001 }
        ensures well_formed { IfOk result IsWellFormed }
        ensures points { IfOk result (λ net. net.points ≡ points) }
        ensures edges { IfOk result (λ net. net.edges ≡ edges_to_origin (points - 1)) }
    {
        let mut edges = Items::new(alloc);
        for earlier in 0..points - 1 {
            edges.push(Edge {
                from: earlier + 1,
                to: 0,
                most: 0,
            })?;
        }
        Ok(Net { points, edges })
    }

    /// Puts one more edge into the net.
    pub fn add(&mut self, edge: Edge) -> Result<(), AllocError>
        requires well_formed { IsWellFormed self.old }
        requires room { length self.old.edges < 1000000 }
        requires joins { (edge.from < self.old.points) × (edge.to < self.old.points) }
        requires small { (negsuc 99999999 ≤ℤ edge.most) × (edge.most ≤ℤ pos 100000000) }
        ensures ok { OnOk result (self.new ≡ record self.old { edges = self.old.edges ++ edge ∷ [] }) }
        ensures err { OnErr result (self.new ≡ self.old) }
        ensures well_formed { IsWellFormed self.new }
    {
        self.edges.push(edge)?;
        Ok(())
    }
}

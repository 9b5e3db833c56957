ghost use Rattle.std.specs.Prelude.{◌≡◌, IfOk, IsTrue, ◌↔◌};
ghost use Rattle.pl_stn.specs.Nets.{IsWellFormed};
ghost use Rattle.pl_stn.specs.Causes.{AreFirstCauses, IsAfterOrigin};

use crate::net::{Edge, Net};
use crate::walking::edge_at;
use std::alloc::{AllocError, Global};

fn is_after_origin(edge: Edge) -> bool
    ensures { IsTrue result ↔ IsAfterOrigin edge }
{
    edge.from != 0 && edge.to == 0 && edge.most == 0
}

/// For each point but the origin an edge that keeps it from lying before the origin.
pub fn first_causes(alloc: Global, net: &Net) -> Result<Vec<Option<u32>>, AllocError>
    requires { IsWellFormed net.now }
    ensures { IfOk result (λ causes. AreFirstCauses net.now causes.items) }
{
    let mut causes: Vec<Option<u32>> = vec![in alloc; None; net.points as usize]?;
    for number in 0..net.edges.len() as u32 {
        let edge = edge_at(net, number);
        if is_after_origin(edge) {
            causes[edge.from as usize] = Some(number);
        }
    }
    Ok(causes)
}

ghost use Rattle.std.specs.Prelude.{◌≡◌, ◌<◌, length, IfOk, slice_index_or, None, replicate};
ghost use Rattle.pl_stn.specs.Nets.{edge_of};
ghost use Rattle.pl_times.specs.Times.{IsJoined};
ghost use Rattle.pl_times.specs.Index.{IsIndex};

use pl_stn::{Edge, Net};
use std::alloc::{AllocError, Global};

/// For each point the last edge that ends there, and for each edge the last one before it that ends at the same point.
#[derive(Drop)]
pub struct Index {
    pub heads: Vec<Option<u32>>,
    pub nexts: Vec<Option<u32>>,
}

pub fn edge_at(net: &Net, number: u32) -> Edge
    requires { number < length net.now.edges }
    ensures { result ≡ edge_of net.now number }
{
    net.edges.as_slice()[number as usize]
}

pub fn slot_at(slots: &[Option<u32>], at: u32) -> Option<u32>
    requires { at < length slots.now }
    ensures { result ≡ slice_index_or slots.now at None }
{
    slots[at as usize]
}

/// So many empty slots.
pub fn no_slots(alloc: Global, count: u32) -> Result<Vec<Option<u32>>, AllocError>
    ensures { IfOk result (λ v. v.items ≡ replicate count None) }
{
    let slots: Vec<Option<u32>> = vec![in alloc; None; count as usize]?;
    Ok(slots)
}

pub fn index_of(alloc: Global, net: &Net) -> Result<Index, AllocError>
    requires { IsJoined net.now }
    ensures { IfOk result (λ index. IsIndex net.now index.heads.items index.nexts.items) }
{
    let mut heads = no_slots(alloc, net.points)?;
    let mut nexts: Vec<Option<u32>> = Vec::new(alloc);
    for number in 0..net.edges.len() as u32 {
        let to = edge_at(net, number).to;
        let next = slot_at(heads.as_slice(), to);
        nexts.push(next)?;
        heads[to as usize] = Some(number);
    }
    Ok(Index { heads, nexts })
}

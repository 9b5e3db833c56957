//! Which vertices of a graph reach themselves. A graph has the list of each vertex's successors; a successor that is no
//! vertex leads nowhere.
ghost use Rattle.std.specs.Prelude.{◌≡◌, ◌<◌, true, false, length, IfOk, IfSome, IfNone};
ghost use Rattle.pl_check.specs.Cycles.{successors, Reaches, IsFirstCyclic, IsAcyclic, is_unmarked, unmarked_in, unmarked_after, unmarked_from, next_of, AreReached, IsComplete};

use pl_lists::Items;
use std::alloc::{AllocError, Global};

fn is_unmarked(vertex: usize, marks: &[bool]) -> bool
    ensures { result ≡ is_unmarked marks.now vertex }
{
    vertex < marks.len() && !marks[vertex]
}

/// The first vertex of the row that is not marked.
fn unmarked_in(marks: &[bool], row: &[u32]) -> Option<usize>
    ensures { result ≡ unmarked_in marks.now row.now }
{
    for vertex in row {
        let place = *vertex as usize;
        if is_unmarked(place, marks) {
            return Some(place);
        }
    }
    None
}

/// The first successor that is not marked, if the vertex is.
fn unmarked_after(marks: &[bool], vertex: usize, row: &[u32]) -> Option<usize>
    requires { vertex < length marks.now }
    ensures { result ≡ unmarked_after marks.now vertex row.now }
{
    if marks[vertex] {
        unmarked_in(marks, row)
    } else {
        None
    }
}

/// A successor of a marked vertex that is not marked itself.
fn unmarked_vertex(marks: &[bool], graph: &[Items<u32>]) -> Option<usize>
    requires { length marks.now ≡ length graph.now }
    ensures { result ≡ unmarked_from marks.now 0 graph.now }
{
    for (vertex, row) in graph.iter().enumerate() {
        if let Some(next) = unmarked_after(marks, vertex, row.as_slice()) {
            return Some(next);
        }
    }
    None
}

/// An unmarked vertex to which an edge leads from the start or from a marked vertex.
#[tactic(auto, unfolding(crate::specs::Cycles::next_of))]
fn next_vertex(graph: &[Items<u32>], start: usize, marks: &[bool]) -> Option<usize>
    requires start { start < length graph.now }
    requires each_vertex { length marks.now ≡ length graph.now }
    ensures { result ≡ next_of graph.now start marks.now }
{
    match unmarked_in(marks, graph[start].as_slice()) {
        Some(next) => Some(next),
        None => unmarked_vertex(marks, graph),
    }
}

#[tactic(auto, using(crate::proofs::CycleLemmas::mark_next, crate::proofs::CycleLemmas::fewer_unmarked, crate::proofs::CycleLemmas::next_below, crate::proofs::CycleLemmas::complete_at_none))]
/// Marks each vertex to which one edge or more lead from the start.
fn reached(alloc: Global, graph: &[Items<u32>], start: usize) -> Result<Vec<bool>, AllocError>
    requires { start < length graph.now }
    ensures each_vertex { IfOk result (λ marks. length marks.items ≡ length graph.now) }
    ensures reached { IfOk result (λ marks. AreReached graph.now start marks.items) }
    ensures complete { IfOk result (λ marks. IsComplete graph.now start marks.items) }
{
    let mut marks: Vec<bool> = vec![in alloc; false; graph.len()]?;
    'marking: loop {
        match next_vertex(graph, start, marks.as_slice()) {
            Some(next) => marks[next] = true,
            None => return Ok(marks),
        }
    }
}

#[tactic(auto, using(crate::proofs::CycleLemmas::marked_reached, crate::proofs::CycleLemmas::unmarked_unreached))]
fn reaches_itself(alloc: Global, graph: &[Items<u32>], vertex: usize) -> Result<bool, AllocError>
    requires { vertex < length graph.now }
    ensures yes { IfOk result (λ found. found ≡ true → Reaches graph.now vertex vertex) }
    ensures no { IfOk result (λ found. found ≡ false → Reaches graph.now vertex vertex → ⊥) }
{
    let marks = reached(alloc, graph, vertex)?;
    Ok(marks[vertex])
}

/// The first vertex that reaches itself, if there is one.
#[tactic(auto, using(crate::proofs::CycleLemmas::none_below, crate::proofs::CycleLemmas::one_further, crate::proofs::CycleLemmas::all_below))]
pub fn first_cyclic(alloc: Global, graph: &[Items<u32>]) -> Result<Option<usize>, AllocError>
    ensures first { IfOk result (λ found. IfSome found (IsFirstCyclic graph.now)) }
    ensures none { IfOk result (λ found. IfNone found (IsAcyclic graph.now)) }
{
    for vertex in 0..graph.len() {
        if reaches_itself(alloc, graph, vertex)? {
            return Ok(Some(vertex));
        }
    }
    Ok(None)
}

//! Marks of the moves that are kept. Of most moves that are not kept the marks show it, so that these need not be compared with
//! each move that is kept.
ghost use Rattle.std.specs.Prelude.{◌≡◌, ◌<◌, length};
ghost use Rattle.pl_cand.specs.Marks.{place_by, place_of, is_marked, KeepsMarked};

use pl_plan::RepairMove;

/// How many marks there are.
pub(crate) const PLACES: usize = 1024;

// The place of a mark, by the number of a kind or an activity and by a start. Moves of one activity to different starts have
// different places if these starts are less than 1024 apart.
fn place_by(number: u32, start: u32) -> usize
    ensures value { result ≡ place_by number start }
    ensures within { result < 1024 }
{
    ((u64::from(start) + u64::from(number) * 89) % 1024) as usize
}

/// The place of a move's mark. Moves that are the same have the same place.
pub(crate) fn place_of(mv: &RepairMove) -> usize
    ensures value { result ≡ place_of mv.now }
    ensures within { result < 1024 }
{
    match *mv {
        RepairMove::Add { kind, start, .. } => place_by(kind, start),
        RepairMove::Shift { id, start } => place_by(id, start),
        RepairMove::Delete { id } => place_by(id, 0),
        _ => 0,
    }
}

/// Whether a move is marked, or another with the same place.
pub(crate) fn is_marked(marks: &[bool], mv: &RepairMove) -> bool
    requires { length marks.now ≡ 1024 }
    ensures { result ≡ is_marked marks.now mv.now }
{
    marks[place_of(mv)]
}

/// Marks a move.
#[tactic(auto, using(crate::proofs::Marking::marked_more))]
pub(crate) fn mark(marks: &mut [bool], mv: &RepairMove)
    requires { length marks.old ≡ 1024 }
    ensures count { length marks.new ≡ 1024 }
    ensures marked { KeepsMarked marks.old marks.new mv.now }
{
    marks[place_of(mv)] = true;
}

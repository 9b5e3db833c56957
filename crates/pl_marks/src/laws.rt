//! What marks say.
ghost use Rattle.std.specs.Prelude.{ℕ, ◌≡◌, List, map, length, slice_get, Some};
ghost use Rattle.std.specs.List.{range_with_len};
ghost use Rattle.pl_marks.specs.declared.author.Author.{Author};
ghost use Rattle.pl_marks.specs.Authors.{times};
ghost use Rattle.pl_marks.specs.Marks.{Signed, marks_of, counts_of, mark_of};

/// Does nothing: its contract is a law. There is a mark for each entry behind those that were handed in, in order, with its author. The counts
/// of each author are 1, 2, and so on, without a gap.
#[tactic(auto, using(crate::proofs::Numbering::entries_are, crate::proofs::Numbering::authors_are, crate::proofs::Numbering::counts_are, crate::proofs::Numbering::marked))]
pub fn marks_are_numbered()
    ensures entries { (s : Signed) → map (λ m. m.entry) (marks_of s) ≡ range_with_len s.opening (length s.authors) }
    ensures authors { (s : Signed) → map (λ m. m.author) (marks_of s) ≡ s.authors }
    ensures counts { (s : Signed) (a : Author) → counts_of a (marks_of s) ≡ range_with_len 1 (times a s.authors) }
    ensures each { (s : Signed) (k : ℕ) (a : Author) → slice_get s.authors k ≡ Some a → slice_get (marks_of s) k ≡ Some (mark_of s k a) }
{}

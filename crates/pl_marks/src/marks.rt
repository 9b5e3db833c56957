//! Marks, which are a function of who made the entries.
ghost use Rattle.std.specs.Prelude.{◌≡◌, ◌+◌, ◌<◌, ◌≤◌, ◌^◌, [], ◌∷◌, ◌++◌, List, length, OnOk, OnErr};
ghost use Rattle.pl_marks.specs.declared.author.Author.{Author};
ghost use Rattle.pl_marks.specs.Authors.{IsAuthor};
ghost use Rattle.pl_marks.specs.Marks.{marks_of, AreFew};

use crate::author::Author;
use crate::mark::Mark;
use std::alloc::{AllocError, Global};
use std::marker::Model;

/// The authors of all entries behind those that were handed in, in order. Contracts see it as the number of these and the list of authors.
#[derive(Drop)]
pub struct Marks {
    opening: u32,
    marks: Vec<Mark>,
    /// How many entries each author has made.
    counts: [u32; 10],
}

impl Model for Marks {
    ghost use Rattle.pl_marks.specs.Marks.{Signed, signed_by, AreCounted};

    ghost Value = { Signed };

    ghost view = { λ m. signed_by m.opening m.marks.items };

    ghost invariant = { λ m. AreCounted m.opening m.marks.items m.counts };
}

impl Marks {
    /// No mark yet, behind so many entries that were handed in.
    #[tactic(auto, using(crate::proofs::Counting::none_counted))]
    pub fn new(alloc: Global, opening: u32) -> Marks
        ensures { result ≡ record { opening = opening; authors = [] } }
    {
        Marks {
            opening,
            marks: Vec::new(alloc),
            counts: [0; 10],
        }
    }

    /// Marks one more entry.
    #[tactic(auto, using(crate::proofs::Counting::pushed, crate::proofs::Counting::count_few, crate::proofs::Counting::authors_more))]
    pub fn push(&mut self, author: Author) -> Result<(), AllocError>
        requires author { IsAuthor author }
        requires few { AreFew self.old }
        ensures ok { OnOk result (self.new ≡ record self.old { authors = self.old.authors ++ author ∷ [] }) }
        ensures err { OnErr result (self.new ≡ self.old) }
    {
        let slot = author.slot();
        let count = self.counts[slot] + 1;
        let entry = self.opening + self.marks.len() as u32;
        self.marks.push(Mark {
            entry,
            author,
            count,
        })?;
        self.counts[slot] = count;
        Ok(())
    }

    /// Takes the last mark back.
    #[tactic(auto, using(crate::proofs::Counting::popped, crate::proofs::Counting::last_known, crate::proofs::Counting::last_counted, crate::proofs::Counting::others_are))]
    pub fn pop(&mut self)
        requires { 0 < length self.old.authors }
        ensures { (authors : List Author) (author : Author) → self.old.authors ≡ authors ++ author ∷ [] → self.new ≡ record self.old { authors = authors } }
    {
        if let Some(mark) = self.marks.pop() {
            let slot = mark.author.slot();
            self.counts[slot] -= 1;
        }
    }

    /// The marks in their order, none of them copied.
    pub fn into_vec(self) -> Vec<Mark>
        ensures { result.items ≡ marks_of self }
    {
        let Marks {
            opening: _,
            marks,
            counts: _,
        } = self;
        marks
    }
}

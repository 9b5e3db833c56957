ghost use Rattle.std.specs.Prelude.{◌≡◌, ◌+◌, ◌<◌, ◌≤◌, ◌++◌, [], ◌∷◌, length, replicate};

use std::marker::Model;

/// The most parameters that a kind has.
const MOST: usize = 16;

/// The values of an activity's parameters, by number. It takes no memory.
#[derive(Drop)]
pub(crate) struct Row {
    places: [Option<i64>; MOST],
    count: usize,
}

impl Model for Row {
    ghost use Rattle.std.specs.Prelude.{ℤ, ◌≤◌, List, Option, take};

    ghost Value = { List (Option ℤ) };

    ghost view = { λ r. take r.count r.places };

    ghost invariant = { λ r. r.count ≤ 16 };
}

impl Row {
    pub(crate) fn new() -> Row
        ensures { result ≡ [] }
    {
        Row {
            places: [None; MOST],
            count: 0,
        }
    }

    /// So many values, none known.
    pub(crate) fn unknown(count: usize) -> Row
        requires { count ≤ 16 }
        ensures { result ≡ replicate count None }
    {
        Row {
            places: [None; MOST],
            count,
        }
    }

    pub(crate) fn push(&mut self, value: Option<i64>)
        requires { length self.old < 16 }
        ensures { self.new ≡ self.old ++ value ∷ [] }
    {
        self.places[self.count] = value;
        self.count += 1;
    }

    pub(crate) fn as_slice(&self) -> &[Option<i64>]
        ensures value { result.now ≡ self.now }
        ensures few { length self.now ≤ 16 }
    {
        &self.places[..self.count]
    }
}

//! A law of the lists that `close` speaks of.
ghost use Rattle.std.specs.Prelude.{ℕ, Bool, List};
ghost use Rattle.pl_turn.specs.Owners.{PicksOwn};

/// Does nothing: its contract is a law. What one pass alone makes is that pass's own list, picked out of the history.
pub fn own_entries_are_picked<I>()
    ensures { (test : I → Bool) (history : List I) (opening : ℕ) (before : List (List (ℕ × I))) (own : List (ℕ × I)) (after : List (List (ℕ × I))) → PicksOwn test history opening before own after }
{}

//! The laws of lines.
ghost use Rattle.std.specs.Prelude.{◌≡◌, ◌≢◌, ℕ, false, List, [], ◌∷◌, ◌++◌, flat_map, All};
ghost use Rattle.pl_io.specs.Lines.{first_line, after_line, lines_of, has_newline, with_newline, missing_newline, next_of, given, ended};

/// Lines from the front, each without a newline, that give the bytes back. What is next where no
/// limit is passed is the first of them, and the end comes where there is none.
pub fn line_laws()
    ensures front { (bytes : List ℕ) → bytes ≢ []
        → lines_of bytes ≡ first_line bytes ∷ lines_of (after_line bytes) }
    ensures no_newline { (bytes : List ℕ) → All (λ line. has_newline line ≡ false) (lines_of bytes) }
    ensures whole { (bytes : List ℕ)
        → flat_map with_newline (lines_of bytes) ≡ bytes ++ missing_newline bytes }
    ensures next { (limit room : ℕ) (bytes line rest : List ℕ)
        → next_of limit room bytes ≡ given line rest → lines_of bytes ≡ line ∷ lines_of rest }
    ensures end { (limit room : ℕ) (bytes : List ℕ)
        → next_of limit room bytes ≡ ended → lines_of bytes ≡ [] }
{}

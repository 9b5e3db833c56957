ghost use Rattle.std.specs.Prelude.{◌≡◌, ◌==◌, ℕ, ◌+◌, ◌<◌, ◌≤◌, ◌^◌, false, List, ◌++◌, length};
ghost use Rattle.std.specs.List.{list_any};
ghost use Rattle.pl_model.specs.declared.whole.Model.{Model};
ghost use Rattle.pl_model.specs.Checked.{IsChecked};
ghost use Rattle.pl_entry.specs.declared.entry.Entry.{Entry};
ghost use Rattle.pl_entry.specs.Bounds.{IsJournalEntry};
ghost use Rattle.pl_journal.specs.Rendering.Lines.{text_of, line_of, text_from, text_of_log, AreEntries};

/// The text of entries is that of a first part of them and then that of the rest, numbered on.
pub fn text_laws()
    ensures { (m : Model) (n : ℕ) (xs ys : List Entry) → text_from m n (xs ++ ys) ≡ text_from m n xs ++ text_from m (n + length xs) ys }
{}

/// The line of an entry that may stand in a journal has no newline but its last byte, and at most 4,160 bytes before it.
pub fn laws_of_length()
    ensures one_line { (m : Model) (n : ℕ) (e : Entry) → IsChecked m → IsJournalEntry m n e → list_any (λ byte. byte == 10) (text_of m n e) ≡ false }
    ensures short { (m : Model) (n : ℕ) (e : Entry) → IsChecked m → n < 2 ^ 32 → IsJournalEntry m n e → length (text_of m n e) ≤ 4160 }
{}

/// Entries that may stand in a journal are told apart by their lines, and so are their numbers. Two logs of such entries that have one text are one log.
pub fn laws_of_telling()
    ensures lines_are_told_apart { (m : Model) (n k : ℕ) (e f : Entry) → IsChecked m → n < 2 ^ 32 → k < 2 ^ 32 → IsJournalEntry m n e → IsJournalEntry m k f → line_of m n e ≡ line_of m k f → (n ≡ k) × (e ≡ f) }
    ensures logs_are_told_apart { (m : Model) (xs ys : List Entry) → IsChecked m → AreEntries m 0 xs → AreEntries m 0 ys → text_of_log m xs ≡ text_of_log m ys → xs ≡ ys }
{}

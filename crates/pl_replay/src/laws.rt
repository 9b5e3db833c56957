ghost use Rattle.std.specs.Prelude.{◌≡◌, List, [], ◌++◌, ℕ, length, false, Option, Some, None, Result, ◌⊎◌};
ghost use Rattle.pl_model.specs.declared.whole.Model.{Model};
ghost use Rattle.pl_model.specs.Checked.{IsChecked};
ghost use Rattle.pl_entry.specs.declared.entry.Entry.{Entry};
ghost use Rattle.pl_io.specs.declared.errors.LineFault.{LineFault};
ghost use Rattle.pl_io.specs.declared.errors.LineFault.TheVariants.{Read, Memory};
ghost use Rattle.pl_io.specs.Reader.{Reader};
ghost use Rattle.pl_machine.specs.Legal.{world_of};
ghost use Rattle.pl_machine.specs.Sound.{State};
ghost use Rattle.pl_replay.specs.declared.verdict.Verdict.{Verdict};
ghost use Rattle.pl_replay.specs.declared.verdict.Verdict.TheVariants.{Legal, NotALine};
ghost use Rattle.pl_replay.specs.Journals.{IsJournalOf, IsWrongAtLast};
ghost use Rattle.pl_replay.specs.Holding.{HoldsLegal, HoldsWrong, HoldsNothing, Tells};
ghost use Rattle.pl_replay.specs.Verifying.{Verified, Stops, Verifies};

/// One verdict fits the lines of a journal: no legal one begins with the lines of a wrong one, no wrong one begins with
/// the lines of another, and lines are those of one log. So over the same bytes one verdict is given, or want of memory
/// or a failed read is told.
pub fn laws_of_verdicts()
    ensures journals_are_told_apart { (m : Model) (lines front more : List (List ℕ)) (log : List Entry) (v : Verdict) → IsChecked m → IsJournalOf m lines log → IsWrongAtLast m front v → lines ≡ front ++ more → ⊥ }
    ensures one_log { (m : Model) (lines : List (List ℕ)) (one other : List Entry) → IsChecked m → IsJournalOf m lines one → IsJournalOf m lines other → one ≡ other }
    ensures one_verdict { (m : Model) (lines front more : List (List ℕ)) (v w : Verdict) → IsChecked m → IsWrongAtLast m lines v → IsWrongAtLast m front w → lines ≡ front ++ more → (v ≡ w) × (more ≡ []) }
    ensures one_answer { (m : Model) (old new last : Reader) (bytes : List ℕ) (after rest : Option (List ℕ)) (v w : Verdict) (machine other : Option State) → IsChecked m → Verified m old (Some bytes) v machine new after → Verified m old (Some bytes) w other last rest → (v ≡ w) × (machine ≡ other) }
    ensures faults_of_the_moment { (m : Model) (old new last : Reader) (bytes : List ℕ) (after rest : Option (List ℕ)) (v : Verdict) (machine : Option State) (f : LineFault) → IsChecked m → Verified m old (Some bytes) v machine new after → Stops m old (Some bytes) f last rest → (f ≡ Read) ⊎ (f ≡ Memory) }
{}

/// Of an input whose bytes are known `verify` answers what they hold: `Legal` exactly where all its lines that are not blank are those of a
/// legal log, and else the first wrong entry, unless a read failed or memory was wanting.
pub fn laws_of_answers()
    ensures legal { (m : Model) (old new : Reader) (bytes : List ℕ) (after : Option (List ℕ)) (log : List Entry) (answer : Result (Verdict × Option State) LineFault) → IsChecked m → HoldsLegal m old bytes log → Verifies m old (Some bytes) answer new after → Tells answer (Legal (length log) (world_of m log).done) (Some (record { spoiled = false; model = m; log = log; world = world_of m log })) }
    ensures wrong { (m : Model) (old new : Reader) (bytes : List ℕ) (after : Option (List ℕ)) (v : Verdict) (answer : Result (Verdict × Option State) LineFault) → IsChecked m → HoldsWrong m old bytes v → Verifies m old (Some bytes) answer new after → Tells answer v None }
    ensures nothing { (m : Model) (old new : Reader) (bytes : List ℕ) (after : Option (List ℕ)) (answer : Result (Verdict × Option State) LineFault) → IsChecked m → HoldsNothing old bytes → Verifies m old (Some bytes) answer new after → Tells answer (NotALine 0) None }
{}

ghost use Rattle.std.specs.Prelude.{◌≡◌, ◌≤◌, ℕ, List, All, length};
ghost use Rattle.pl_io.specs.Lines.{lines_of};
ghost use Rattle.pl_model.specs.declared.whole.Model.{Model};
ghost use Rattle.pl_entry.specs.declared.entry.Entry.{Entry};
ghost use Rattle.pl_machine.specs.Legal.{Legal, world_of};
ghost use Rattle.pl_report.specs.Demonstration.{demo_lines, demo_text};
ghost use Rattle.pl_report.specs.Sent.{sent_ids};

/// The demonstration's input is read as its lines, which are short. It has at most 1,000,000 bytes.
pub fn demo_input_laws()
    ensures lines { (goals : ℕ) → goals ≤ 4000 → lines_of (demo_text goals) ≡ demo_lines goals }
    ensures short { (goals : ℕ) → goals ≤ 4000 → All (λ line. length line ≤ 100) (demo_lines goals) }
    ensures total { (goals : ℕ) → goals ≤ 4000 → length (demo_text goals) ≤ 1000000 }
{}

/// The commands that a report lists, those of the log's dispatches, are those that it counts: their ids are those that the
/// world after the log has sent, in that order.
pub fn laws_of_reports()
    ensures { (m : Model) (log : List Entry) → Legal m log → sent_ids log ≡ (world_of m log).dispatched }
{}

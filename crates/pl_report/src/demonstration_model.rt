ghost use Rattle.std.specs.Prelude.{◌≡◌, ◌≤◌, ℕ, Some};
ghost use Rattle.pl_input.specs.Words.{split_of};
ghost use Rattle.pl_check.specs.Accepting.{IsModelText};
ghost use Rattle.pl_report.specs.Demonstration.{demo_text};
ghost use Rattle.pl_report.specs.DemoModel.{demo_words, demo_model};

/// The demonstration's input begins with the same text for each number of goals, and this text is a model's.
pub fn laws_of_demonstration()
    ensures text { (goals : ℕ) → goals ≤ 4000 → (split_of (demo_text goals)).text ≡ Some demo_words }
    ensures model { IsModelText demo_words demo_model }
{}

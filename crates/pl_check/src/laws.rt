//! Models and refusals, told apart by the text alone.
ghost use Rattle.std.specs.Prelude.{◌≡◌, ℕ, List};
ghost use Rattle.pl_model.specs.declared.whole.Model.{Model};
ghost use Rattle.pl_model.specs.Checked.{IsChecked};
ghost use Rattle.pl_check.specs.Accepting.{IsModelText, IsRefusedAs};

/// A model's text is not refused, and has one model, which is a checked one. A text is refused by
/// one line.
pub fn texts_are_told_apart()
    ensures apart { (text line : List ℕ) (m : Model) → IsModelText text m → IsRefusedAs text line → ⊥ }
    ensures one { (text : List ℕ) (m n : Model) → IsModelText text m → IsModelText text n → m ≡ n }
    ensures line { (text a b : List ℕ) → IsRefusedAs text a → IsRefusedAs text b → a ≡ b }
    ensures checked { (text : List ℕ) (m : Model) → IsModelText text m → IsChecked m }
{}

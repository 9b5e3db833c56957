ghost use Rattle.pl_model.specs.declared.whole.Model.{Model};
ghost use Rattle.pl_model.specs.Checked.{IsChecked};
ghost use Rattle.pl_laws.specs.Laws.{LengthIsBounded, PairLengthIsBounded, ChosenAreOfExecutive};

/// A log is no longer than its inputs and turns allow, where each commit is what the executive chooses: once repair rests, as in
/// every log of one thread, or at any time, as where the executive and a planner each act on one plan.
pub fn laws_of_length()
    ensures one_thread { (m : Model) → IsChecked m → LengthIsBounded m }
    ensures pair { (m : Model) → IsChecked m → PairLengthIsBounded m }
    ensures chosen { (m : Model) → ChosenAreOfExecutive m }
{}

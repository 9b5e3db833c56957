ghost use Rattle.pl_model.specs.declared.whole.Model.{Model};
ghost use Rattle.pl_model.specs.Checked.{IsChecked};
ghost use Rattle.pl_laws.specs.Laws.{FrontsAreLegal, MayBeWritten, AreToldApart};

/// What a legal log begins with is a legal log. Each entry of one may stand in a journal under its place, and two logs with one text are one log.
pub fn laws_of_journals()
    ensures fronts { (m : Model) → FrontsAreLegal m }
    ensures written { (m : Model) → MayBeWritten m }
    ensures told_apart { (m : Model) → IsChecked m → AreToldApart m }
{}

ghost use Rattle.pl_model.specs.declared.whole.Model.{Model};
ghost use Rattle.pl_model.specs.Checked.{IsChecked};
ghost use Rattle.pl_laws.specs.Lengths.{SoloIsBounded, AheadIsBounded, TeamIsBounded, FullHasMany, AheadFullHasMany, TeamFullHasMany};

/// The log of a run is no longer than its inputs and turns allow, so it is not full where these are few.
pub fn laws_of_runs()
    ensures length { (m : Model) → IsChecked m → SoloIsBounded m }
    ensures ahead { (m : Model) → IsChecked m → AheadIsBounded m }
    ensures team { (m : Model) → IsChecked m → TeamIsBounded m }
    ensures full { FullHasMany }
    ensures ahead_full { AheadFullHasMany }
    ensures team_full { TeamFullHasMany }
{}

ghost use Rattle.pl_model.specs.declared.whole.Model.{Model};
ghost use Rattle.pl_model.specs.Checked.{IsChecked};
ghost use Rattle.pl_laws.specs.Laws.{RepairsKeepCommitted, BegunStays, CommittedStays, CommitsNeverFall, HaltsWithdraw, CommitsAreGranted, GrantsChangeNoConflict};

/// A repair leaves what is committed as it was. What is committed and has begun stays committed, and no later entry changes it
/// but an accepted `until` of its id, which changes its end alone. Up to the next `halt` the same is true of all that is
/// committed, and no less is committed. A `halt` withdraws what starts after the present, and nothing else. A commit is
/// granted exactly where it may be, and then changes no conflict.
pub fn laws_of_commits()
    ensures repairs { (m : Model) → IsChecked m → RepairsKeepCommitted m }
    ensures begun { (m : Model) → IsChecked m → BegunStays m }
    ensures stays { (m : Model) → IsChecked m → CommittedStays m }
    ensures never_fall { (m : Model) → CommitsNeverFall m }
    ensures halts { (m : Model) → HaltsWithdraw m }
    ensures granted { (m : Model) → CommitsAreGranted m }
    ensures grants { (m : Model) → GrantsChangeNoConflict m }
{}

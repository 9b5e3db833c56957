//! No input has the causes of two statuses.
ghost use Rattle.std.specs.Prelude.{ℕ, List, Option};
ghost use Rattle.pl_main.specs.Top.{line_limit, IsFound, IsNoModel, IsPastHead};
ghost use Rattle.pl_main.specs.Endings.{IsDone, IsPastLimit, IsFull};
ghost use Rattle.pl_main.specs.RunKinds.{solo_run, look_run, run_of};
ghost use Rattle.pl_main.specs.declared.command.Team.{Team};
ghost use Rattle.pl_main.specs.Demos.{IsShown, IsShownInPart};
ghost use Rattle.pl_main.specs.declared.form.Form.{Form};
ghost use Rattle.pl_main.specs.Replays.{journal_line_limit, IsRightJournal, IsWrongJournal, IsRefused, IsPastJournal};
ghost use Rattle.pl_main.specs.Limits.{IsWithinLimits};

/// The causes of the statuses 0, 3, 6 and 7 of a run stand one at a time, whatever was written, and
/// so do those of the statuses 0, 3 and 6 of a check, of 0, 3, 6 and 8 where a journal is read, and of 0 and 7 of a
/// demonstration. Of a pair or a crew, and of a run that looks ahead, that of 3 stands apart from those of 0, 6 and 7, and those of 0 and 6 from one another. An input within the limits has no cause of 6.
pub fn statuses_are_told_apart()
    ensures done_not_refused { (turns : ℕ) (input : List ℕ) (left held now other_left other_held other_now : Option (List ℕ))
        → IsDone (solo_run turns) input left held now → IsNoModel line_limit input other_left other_held other_now → ⊥ }
    ensures done_not_past { (turns : ℕ) (input : List ℕ) (left held now other_left other_held other_now : Option (List ℕ))
        → IsDone (solo_run turns) input left held now → IsPastLimit (solo_run turns) input other_left other_held other_now → ⊥ }
    ensures done_not_full { (turns : ℕ) (input : List ℕ) (left held now other_left other_held other_now : Option (List ℕ))
        → IsDone (solo_run turns) input left held now → IsFull (solo_run turns) input other_left other_held other_now → ⊥ }
    ensures refused_not_past { (turns : ℕ) (input : List ℕ) (left held now other_left other_held other_now : Option (List ℕ))
        → IsNoModel line_limit input left held now → IsPastLimit (solo_run turns) input other_left other_held other_now → ⊥ }
    ensures refused_not_full { (turns : ℕ) (input : List ℕ) (left held now other_left other_held other_now : Option (List ℕ))
        → IsNoModel line_limit input left held now → IsFull (solo_run turns) input other_left other_held other_now → ⊥ }
    ensures past_not_full { (turns : ℕ) (input : List ℕ) (left held now other_left other_held other_now : Option (List ℕ))
        → IsPastLimit (solo_run turns) input left held now → IsFull (solo_run turns) input other_left other_held other_now → ⊥ }
    ensures found_not_refused { (input : List ℕ) (left held now other_left other_held other_now : Option (List ℕ))
        → IsFound input left held now → IsNoModel line_limit input other_left other_held other_now → ⊥ }
    ensures found_not_past { (input : List ℕ) (left held now other_left other_held other_now : Option (List ℕ))
        → IsFound input left held now → IsPastHead line_limit input other_left other_held other_now → ⊥ }
    ensures no_model_not_past { (input : List ℕ) (left held now other_left other_held other_now : Option (List ℕ))
        → IsNoModel line_limit input left held now → IsPastHead line_limit input other_left other_held other_now → ⊥ }
    ensures shown_not_full { (goals : ℕ) (held now other_held other_now : Option (List ℕ))
        → IsShown goals held now → IsShownInPart goals other_held other_now → ⊥ }
    ensures team_done_not_refused { (team : Team) (turns : ℕ) (input : List ℕ) (left held now other_left other_held other_now : Option (List ℕ))
        → IsDone (run_of team turns) input left held now → IsNoModel line_limit input other_left other_held other_now → ⊥ }
    ensures team_done_not_past { (team : Team) (turns : ℕ) (input : List ℕ) (left held now other_left other_held other_now : Option (List ℕ))
        → IsDone (run_of team turns) input left held now → IsPastLimit (run_of team turns) input other_left other_held other_now → ⊥ }
    ensures team_refused_not_past { (team : Team) (turns : ℕ) (input : List ℕ) (left held now other_left other_held other_now : Option (List ℕ))
        → IsNoModel line_limit input left held now → IsPastLimit (run_of team turns) input other_left other_held other_now → ⊥ }
    ensures team_refused_not_full { (team : Team) (turns : ℕ) (input : List ℕ) (left held now other_left other_held other_now : Option (List ℕ))
        → IsNoModel line_limit input left held now → IsFull (run_of team turns) input other_left other_held other_now → ⊥ }
    ensures ahead_done_not_refused { (turns : ℕ) (input : List ℕ) (left held now other_left other_held other_now : Option (List ℕ))
        → IsDone (look_run turns) input left held now → IsNoModel line_limit input other_left other_held other_now → ⊥ }
    ensures ahead_done_not_past { (turns : ℕ) (input : List ℕ) (left held now other_left other_held other_now : Option (List ℕ))
        → IsDone (look_run turns) input left held now → IsPastLimit (look_run turns) input other_left other_held other_now → ⊥ }
    ensures ahead_refused_not_past { (turns : ℕ) (input : List ℕ) (left held now other_left other_held other_now : Option (List ℕ))
        → IsNoModel line_limit input left held now → IsPastLimit (look_run turns) input other_left other_held other_now → ⊥ }
    ensures ahead_refused_not_full { (turns : ℕ) (input : List ℕ) (left held now other_left other_held other_now : Option (List ℕ))
        → IsNoModel line_limit input left held now → IsFull (look_run turns) input other_left other_held other_now → ⊥ }
    ensures right_not_wrong { (form : Form) (input : List ℕ) (left held now other_left other_held other_now : Option (List ℕ))
        → IsRightJournal form input left held now → IsWrongJournal form input other_left other_held other_now → ⊥ }
    ensures right_not_refused { (form : Form) (input : List ℕ) (left held now other_left other_held other_now : Option (List ℕ))
        → IsRightJournal form input left held now → IsRefused form input other_left other_held other_now → ⊥ }
    ensures right_not_past { (form : Form) (input : List ℕ) (left held now other_left other_held other_now : Option (List ℕ))
        → IsRightJournal form input left held now → IsPastJournal form input other_left other_held other_now → ⊥ }
    ensures wrong_not_refused { (form : Form) (input : List ℕ) (left held now other_left other_held other_now : Option (List ℕ))
        → IsWrongJournal form input left held now → IsRefused form input other_left other_held other_now → ⊥ }
    ensures wrong_not_past { (form : Form) (input : List ℕ) (left held now other_left other_held other_now : Option (List ℕ))
        → IsWrongJournal form input left held now → IsPastJournal form input other_left other_held other_now → ⊥ }
    ensures no_journal_not_past { (form : Form) (input : List ℕ) (left held now other_left other_held other_now : Option (List ℕ))
        → IsRefused form input left held now → IsPastJournal form input other_left other_held other_now → ⊥ }
    ensures within { (turns : ℕ) (input : List ℕ) (left held now : Option (List ℕ))
        → IsWithinLimits line_limit input → IsPastLimit (solo_run turns) input left held now → ⊥ }
    ensures team_within { (team : Team) (turns : ℕ) (input : List ℕ) (left held now : Option (List ℕ))
        → IsWithinLimits line_limit input → IsPastLimit (run_of team turns) input left held now → ⊥ }
    ensures ahead_within { (turns : ℕ) (input : List ℕ) (left held now : Option (List ℕ))
        → IsWithinLimits line_limit input → IsPastLimit (look_run turns) input left held now → ⊥ }
    ensures head_within { (input : List ℕ) (left held now : Option (List ℕ))
        → IsWithinLimits line_limit input → IsPastHead line_limit input left held now → ⊥ }
    ensures journal_within { (form : Form) (input : List ℕ) (left held now : Option (List ℕ))
        → IsWithinLimits journal_line_limit input → IsPastJournal form input left held now → ⊥ }
{}

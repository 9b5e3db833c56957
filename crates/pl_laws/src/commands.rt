ghost use Rattle.pl_model.specs.declared.whole.Model.{Model};
ghost use Rattle.pl_model.specs.Checked.{IsChecked};
ghost use Rattle.pl_laws.specs.Laws.{SentIsInFront, AllIsSentAtClose, StartsNeverFall};

/// What was sent is a front of what is due after every entry, and all of it at each close. No command starts before an earlier one.
pub fn laws_of_commands()
    ensures in_front { (m : Model) → IsChecked m → SentIsInFront m }
    ensures all_at_close { (m : Model) → AllIsSentAtClose m }
    ensures starts { (m : Model) → IsChecked m → StartsNeverFall m }
{}

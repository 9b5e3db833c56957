//! Choosers that plan whole runs.
ghost use Rattle.pl_entry.specs.declared.event.Event.{Event};
ghost use Rattle.pl_machine.specs.World.{World};
ghost use Rattle.pl_main.specs.Solo.{IsRuleOf};

use pl_cand::Chooser;
use pl_choose::Least;
use pl_search::Insertion;

/// A chooser with a rule of which events a world allows where it is asked for repairs.
pub trait Planner: Chooser {
    ghost rule: { World → Event → Type 0 };

    ghost sound: { IsRuleOf Self.Chooser.picks rule };
}

impl Planner for Least {
    ghost use Rattle.pl_main.specs.Rules.{least_rule};
    ghost use Rattle.pl_main.specs.Solo.{IsSoloEvent};

    ghost rule = { IsSoloEvent };

    ghost sound = { least_rule };
}

impl Planner for Insertion {
    ghost use Rattle.pl_main.specs.Rules.{ahead_rule};
    ghost use Rattle.pl_main.specs.Solo.{IsAheadEvent};

    ghost rule = { IsAheadEvent };

    ghost sound = { ahead_rule };
}

ghost use Rattle.std.specs.Prelude.{IfSome};
ghost use Rattle.std.specs.Option.{option_copied};
ghost use Rattle.pl_entry.specs.Bounds.{IsMessageLine};
ghost use Rattle.pl_main.specs.Tells.{IsReady, LogsInputOrStops, AnswersMessageOrStops};

use crate::planner::Planner;
use pl_driver::solo_round;
use pl_machine::{Machine, Stop};
use std::alloc::Global;

#[tactic(auto, using(crate::proofs::Telling::takes_hears))]
fn hear(machine: &mut Machine, line: Option<&[u8]>) -> Result<(), Stop>
    requires ready { IsReady machine.old }
    requires fits { IfSome (option_copied line) IsMessageLine }
    ensures { LogsInputOrStops machine.old (option_copied line.entry) result machine.new }
{
    machine.input(line)?;
    Ok(())
}

/// Takes a message, or the end of the input, and goes on to the close of its round. The planner is asked for repairs.
#[tactic(auto, using(crate::proofs::Telling::told_at_once))]
pub fn tell<P: Planner>(
    alloc: Global,
    machine: &mut Machine,
    planner: &mut P,
    line: Option<&[u8]>,
) -> Result<(), Stop>
    requires ready { IsReady machine.old }
    requires fits { IfSome (option_copied line) IsMessageLine }
    ensures { AnswersMessageOrStops P.rule machine.old (option_copied line.entry) result machine.new }
{
    hear(machine, line)?;
    if machine.done() {
        return Ok(());
    }
    solo_round(alloc, machine, planner)
}

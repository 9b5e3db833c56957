ghost use Rattle.std.specs.Prelude.{◌≡◌, false, true, Some};
ghost use Rattle.pl_machine.specs.Step.{is_enabled};
ghost use Rattle.pl_machine.specs.Choices.{exec_choice_of, event_of};
ghost use Rattle.pl_driver.specs.Rounds.{Executes, Stepped, Rounds};

use pl_cand::Chooser;
use pl_entry::Reply;
use pl_machine::{Choice, Machine, Stop};
use std::alloc::Global;

/// Rests where there is a reason to, and else repairs once.
#[tactic(auto, using(crate::proofs::Going::repaired_goes, crate::proofs::Going::repair_stops))]
fn repair<C: Chooser>(machine: &mut Machine, chooser: &mut C) -> Result<(), Stop>
    requires unspoiled { machine.old.spoiled ≡ false }
    requires open { machine.old.world.closed ≡ false }
    requires going { machine.old.world.rested ≡ false }
    ensures { Stepped C.picks C.drawn machine.old chooser.old result machine.new chooser.new }
{
    machine.repair_once(chooser)?;
    Ok(())
}

/// What the executive chooses once repair rests: there is always something.
#[tactic(auto, unfolding(pl_machine::specs::Choices::exec_choice_of))]
fn choose(machine: &Machine) -> Choice
    requires unspoiled { machine.now.spoiled ≡ false }
    requires open { machine.now.world.closed ≡ false }
    requires going { machine.now.world.done ≡ false }
    requires rested { machine.now.world.rested ≡ true }
    ensures choice { exec_choice_of machine.now.world ≡ Some result }
    ensures enabled { is_enabled machine.now.world (event_of result) ≡ true }
{
    match machine.exec_choice() {
        Some(choice) => choice,
        None => unreachable!(),
    }
}

fn execute(machine: &mut Machine) -> Result<Reply, Stop>
    requires unspoiled { machine.old.spoiled ≡ false }
    requires open { machine.old.world.closed ≡ false }
    requires going { machine.old.world.done ≡ false }
    requires rested { machine.old.world.rested ≡ true }
    ensures { Executes machine.old result machine.new }
{
    let choice = choose(machine);
    machine.execute(choice)
}

#[tactic(auto, using(crate::proofs::Going::executes_goes, crate::proofs::Going::executes_stops))]
fn step<C: Chooser>(machine: &mut Machine, chooser: &mut C) -> Result<(), Stop>
    requires unspoiled { machine.old.spoiled ≡ false }
    requires open { machine.old.world.closed ≡ false }
    requires going { machine.old.world.done ≡ false }
    ensures { Stepped C.picks C.drawn machine.old chooser.old result machine.new chooser.new }
{
    if machine.resting() {
        execute(machine)?;
        Ok(())
    } else {
        repair(machine, chooser)
    }
}

/// Goes on until the round is closed, or the log is full, or memory is wanting. It never answers `NotNow`.
#[tactic(auto, using(crate::proofs::Going::ran_on, crate::proofs::Going::ran_none, crate::proofs::Going::ran_spoils))]
pub fn solo_round<C: Chooser>(
    _alloc: Global,
    machine: &mut Machine,
    chooser: &mut C,
) -> Result<(), Stop>
    requires { machine.old.world.closed ≡ false }
    ensures { Rounds C.picks C.drawn machine.old chooser.old result machine.new chooser.new }
{
    if machine.spoiled() {
        return Err(Stop::Spoiled);
    }
    'turns: while !machine.closed() {
        step(machine, chooser)?;
    }
    Ok(())
}

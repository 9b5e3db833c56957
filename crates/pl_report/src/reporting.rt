ghost use Rattle.std.specs.Prelude.{◌≡◌, false, IfOk};
ghost use Rattle.pl_report.specs.Reports.{report_of};

use crate::activities::push_activities;
use crate::commands::push_commands;
use crate::conflicts::push_conflicts;
use crate::goals::push_goals;
use crate::heading::push_heading;
use pl_machine::Machine;
use std::alloc::{AllocError, Global};

/// The report of a machine: how far things are, its goals, its activities, what is wrong, and the commands that it sent.
#[tactic(auto, using(crate::proofs::Texts::texts_joined), unfolding(crate::specs::Reports::report_of))]
pub fn report(alloc: Global, machine: &Machine) -> Result<Vec<u8>, AllocError>
    requires { machine.now.spoiled ≡ false }
    ensures { IfOk result (λ text. text.items ≡ report_of machine.now) }
{
    let board = machine.board();
    let state = board.state();
    let conflicts = board.conflicts().list(alloc)?;
    let log = machine.log();
    let mut text = Vec::new(alloc);
    push_heading(
        &mut text,
        log.len(),
        state,
        machine.dispatched().len(),
        conflicts.as_slice().len(),
    )?;
    push_goals(&mut text, state)?;
    push_activities(&mut text, state)?;
    push_conflicts(&mut text, conflicts.as_slice())?;
    let entries = log.entries_from(alloc, 0)?;
    push_commands(&mut text, machine.model(), entries.as_slice())?;
    Ok(text)
}

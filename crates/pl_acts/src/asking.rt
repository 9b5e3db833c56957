//! How a planner's chooser is asked, outside the turn.
ghost use Rattle.std.specs.Prelude.{◌≡◌, ◌++◌, ◌∷◌, [], ◌⊎◌, false, IfOk, OnOk};
ghost use Rattle.pl_choose.specs.Picks.{seeded_after};
ghost use Rattle.pl_machine.specs.Legal.{Legal};
ghost use Rattle.pl_acts.specs.Replicas.{IsNext, HasLog, log_of, IsAsked};

use crate::draft::Draft;
use crate::sight::Sight;
use pl_choose::Seeded;
use pl_entry::Entry;
use pl_machine::{Machine, Stop};
use std::alloc::{AllocError, Global};

/// Makes the event of the next entry of a legal log, which can be made: only memory can be wanting.
fn follow(replica: &mut Machine, entry: &Entry) -> Result<(), Stop>
    requires unspoiled { replica.old.spoiled ≡ false }
    requires next { IsNext replica.old.model replica.old.log entry.now }
    ensures { OnOk result (HasLog replica.old.model (replica.old.log ++ entry.now ∷ []) replica.new) }
{
    let _log = replica.log();
    replica.answer(&entry.event)?;
    Ok(())
}

/// Makes the events of the next entries of a legal log.
fn catch_up(replica: &mut Machine, entries: &[Entry]) -> Result<(), Stop>
    requires unspoiled { replica.old.spoiled ≡ false }
    requires legal { Legal replica.old.model (replica.old.log ++ entries.now) }
    ensures { OnOk result (HasLog replica.old.model (replica.old.log ++ entries.now) replica.new) }
{
    for entry in entries {
        follow(replica, entry)?;
    }
    Ok(())
}

/// Asks a chooser on a machine that has come to the end of a draft's log.
#[tactic(auto, using(crate::proofs::Replicas::asked))]
fn propose(chooser: &mut Seeded, mut replica: Machine) -> Result<Sight, AllocError>
    requires { replica.spoiled ≡ false }
    ensures asked { IfOk result (IsAsked chooser.old replica.model replica.log) }
    ensures drew { chooser.new ≡ seeded_after chooser.old }
{
    let seen = replica.entries();
    let _log = replica.log();
    match replica.propose(chooser) {
        Ok(proposal) => Ok(Sight {
            seen,
            proposal,
            replica: Some(replica),
        }),
        Err(_) => Err(AllocError),
    }
}

/// Asks a chooser on a replica of the plan, which comes to the end of the log first.
pub fn ask(chooser: &mut Seeded, draft: Draft) -> Result<Sight, AllocError>
    requires unspoiled { draft.replica.spoiled ≡ false }
    requires legal { Legal draft.replica.model (log_of draft) }
    ensures asked { IfOk result (IsAsked chooser.old draft.replica.model (log_of draft)) }
    ensures drew { OnOk result (chooser.new ≡ seeded_after chooser.old) }
    ensures once { (chooser.new ≡ chooser.old) ⊎ (chooser.new ≡ seeded_after chooser.old) }
{
    let Draft {
        mut replica,
        entries,
    } = draft;
    match catch_up(&mut replica, entries.as_slice()) {
        Ok(()) => propose(chooser, replica),
        Err(_) => Err(AllocError),
    }
}

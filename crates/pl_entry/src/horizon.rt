ghost use Rattle.std.specs.Prelude.{◌≡◌};
ghost use Rattle.pl_entry.specs.Horizon.{lead_of, target_of, best_of};

use pl_conflict::Conflict;
use pl_model::Model;

fn lead(model: &Model, halted: bool) -> u32
    ensures { result ≡ lead_of model.now halted }
{
    if halted { 1 } else { model.lead }
}

/// How far a commit is to go when nothing holds it: the lead from the present, one moment alone while the planner is
/// halted, and not past the horizon.
pub fn target(model: &Model, now: u32, halted: bool) -> u32
    ensures { result ≡ target_of model.now now halted }
{
    let lead = lead(model, halted);
    now.saturating_add(lead).min(model.horizon)
}

/// How far a commit can go, up to the target, if `first` is the first conflict.
pub fn best(model: &Model, now: u32, halted: bool, first: Option<Conflict>) -> u32
    ensures { result ≡ best_of model.now now halted first }
{
    let target = target(model, now, halted);
    match first {
        Some(conflict) => target.min(conflict.from),
        None => target,
    }
}

ghost use Rattle.std.specs.Prelude.{◌≡◌, ◌==◌, ℕ, [], None, Some, OnOk, if◌then◌else◌};
ghost use Rattle.std.specs.Option.{option_copied, option_map};
ghost use Rattle.pl_semantics.specs.declared.plan_state.PlanState.{PlanState};
ghost use Rattle.pl_update.specs.Evaluations.Kept.{kept_at, come_to, AreOf};
ghost use Rattle.pl_update.specs.Evaluations.Places.{IsPlaceOf, IsGapFor};
ghost use Rattle.pl_update.specs.Evaluations.Shifted.{moved};

use crate::evaluations::searching::search;
use pl_lists::Copied;
use pl_plan::Evaluated;
use std::alloc::{AllocError, Global};

/// What activities come to, by rising id.
#[derive(Drop)]
pub struct Evaluations {
    by_id: Vec<(u32, Evaluated)>,
}

impl std::marker::Model for Evaluations {
    ghost use Rattle.pl_update.specs.Evaluations.Kept.{Entries, AreRising};

    ghost Value = { Entries };

    ghost view = { λ e. e.by_id.items };

    ghost invariant = { λ e. AreRising e.by_id.items };
}

fn move_along(evaluated: &mut Evaluated, from: u32, to: u32)
    ensures { evaluated.new ≡ moved from to evaluated.old }
{
    if let Some(end) = evaluated.end {
        evaluated.end = Some(to.saturating_add(end.saturating_sub(from)));
    }
}

impl Evaluations {
    /// Of no activities.
    pub fn new(alloc: Global) -> Evaluations
        ensures { result ≡ [] }
    {
        Evaluations {
            by_id: Vec::new(alloc),
        }
    }

    /// What the activity of this id comes to.
    pub fn of(&self, id: u32) -> Option<&Evaluated>
        ensures kept { option_copied result ≡ kept_at id self.now }
        ensures of_state { (s : PlanState) → AreOf s self.now → option_copied result ≡ come_to s.model s.plan.activities id }
    {
        match search(&self.by_id, id) {
            Ok(at) => Some(&self.by_id[at].1),
            Err(_) => None,
        }
    }

    /// Keeps this under the id, in place of what was kept there.
    pub(crate) fn keep(&mut self, id: u32, evaluated: Evaluated) -> Result<(), AllocError>
        ensures { OnOk result ((q : ℕ) → kept_at q self.new ≡ (if id == q then Some evaluated else kept_at q self.old)) }
    {
        match search(&self.by_id, id) {
            Ok(at) => {
                self.exchange(at, id, evaluated);
                Ok(())
            }
            Err(at) => self.insert(at, id, evaluated),
        }
    }

    // Puts this in the place of what is kept under the id.
    fn exchange(&mut self, at: usize, id: u32, evaluated: Evaluated)
        requires { IsPlaceOf id self.old at }
        ensures { (q : ℕ) → kept_at q self.new ≡ (if id == q then Some evaluated else kept_at q self.old) }
    {
        self.by_id[at] = (id, evaluated);
    }

    // Puts an entry where it goes.
    fn insert(&mut self, at: usize, id: u32, evaluated: Evaluated) -> Result<(), AllocError>
        requires { IsGapFor id self.old at }
        ensures { OnOk result ((q : ℕ) → kept_at q self.new ≡ (if id == q then Some evaluated else kept_at q self.old)) }
    {
        self.by_id.insert(at, (id, evaluated))?;
        Ok(())
    }

    /// Keeps nothing under the id.
    pub(crate) fn forget(&mut self, id: u32)
        ensures { (q : ℕ) → kept_at q self.new ≡ (if id == q then None else kept_at q self.old) }
    {
        if let Ok(at) = search(&self.by_id, id) {
            self.remove(at, id);
        }
    }

    // Takes the entry of the id out.
    fn remove(&mut self, at: usize, id: u32)
        requires { IsPlaceOf id self.old at }
        ensures { (q : ℕ) → kept_at q self.new ≡ (if id == q then None else kept_at q self.old) }
    {
        self.by_id.remove(at);
    }

    /// Moves the end that is kept under the id along with the start.
    pub(crate) fn move_end(&mut self, id: u32, from: u32, to: u32)
        ensures { (q : ℕ) → kept_at q self.new ≡ (if id == q then option_map (moved from to) (kept_at q self.old) else kept_at q self.old) }
    {
        if let Ok(at) = search(&self.by_id, id) {
            self.move_end_at(at, id, from, to);
        }
    }

    // Moves the end of the entry of the id.
    fn move_end_at(&mut self, at: usize, id: u32, from: u32, to: u32)
        requires { IsPlaceOf id self.old at }
        ensures { (q : ℕ) → kept_at q self.new ≡ (if id == q then option_map (moved from to) (kept_at q self.old) else kept_at q self.old) }
    {
        move_along(&mut self.by_id[at].1, from, to);
    }
}

impl Copied for Evaluations {
    fn copy(&self, alloc: Global) -> Result<Evaluations, AllocError> {
        let mut by_id = Vec::with_capacity(alloc, self.by_id.len())?;
        for entry in &self.by_id {
            by_id.push((entry.0, entry.1.copy(alloc)?))?;
        }
        Ok(Evaluations { by_id })
    }
}

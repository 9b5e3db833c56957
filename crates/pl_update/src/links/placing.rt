//! Activities of a plan come into a store one after another, and what that changes is told.
ghost use Rattle.std.specs.Prelude.{◌≡◌, OnOk, Some};
ghost use Rattle.pl_links.specs.Items.{CanBePlaced, with_item};
ghost use Rattle.pl_links.specs.Kept.{IsFor};
ghost use Rattle.pl_plan.specs.Activities.{activity_of};
ghost use Rattle.pl_semantics.specs.Links.{placed_of};
ghost use Rattle.pl_semantics.specs.PlanStates.{end_at};
ghost use Rattle.pl_update.specs.Evaluations.Kept.{AreOf};
ghost use Rattle.pl_update.specs.Links.Telling.{TellsAll};
ghost use Rattle.pl_update.specs.Links.Placing.{CanPlaceAll, all_with, placed_with};

use crate::evaluations::Evaluations;
use crate::links::taking::add_changes;
use pl_links::{Broken, Links, Placed};
use pl_plan::Activity;
use pl_semantics::PlanState;
use std::alloc::AllocError;

fn placed_with(a: &Activity, end: Option<u32>) -> Placed
    ensures { result ≡ placed_with a.now end }
{
    Placed {
        id: a.id,
        kind: a.kind,
        start: a.start,
        end,
        parent: a.parent,
        detail: a.detail,
    }
}

fn place_with(
    s: &PlanState,
    links: &mut Links,
    a: &Activity,
    end: Option<u32>,
    told: &mut Vec<Broken>,
) -> Result<(), AllocError>
    requires end { end ≡ end_at s.now a.now }
    requires model { IsFor s.now.model links.old }
    requires free { CanBePlaced s.now.model links.old.items (placed_of s.now a.now) }
    ensures items { OnOk result (links.new.items ≡ with_item (placed_of s.now a.now) links.old.items) }
    ensures told { OnOk result (TellsAll told.old.items told.new.items links.old.broken links.new.broken) }
    ensures model { IsFor s.now.model links.new }
{
    let changes = links.place_telling(s.model.get(), &placed_with(a, end))?;
    add_changes(&changes, told)?;
    Ok(())
}

// With the end that is kept.
fn place_one(
    s: &PlanState,
    values: &Evaluations,
    links: &mut Links,
    a: &Activity,
    told: &mut Vec<Broken>,
) -> Result<(), AllocError>
    requires values { AreOf s.now values.now }
    requires live { activity_of a.now.id s.now.plan.activities ≡ Some a.now }
    requires model { IsFor s.now.model links.old }
    requires free { CanBePlaced s.now.model links.old.items (placed_of s.now a.now) }
    ensures items { OnOk result (links.new.items ≡ with_item (placed_of s.now a.now) links.old.items) }
    ensures told { OnOk result (TellsAll told.old.items told.new.items links.old.broken links.new.broken) }
    ensures model { IsFor s.now.model links.new }
{
    match values.of(a.id) {
        Some(evaluated) => place_with(s, links, a, evaluated.end, told),
        None => unreachable!(),
    }
}

/// Places these activities of the plan, of which the ends are kept.
pub(crate) fn place_all(
    s: &PlanState,
    values: &Evaluations,
    links: &mut Links,
    placed: &[Activity],
    told: &mut Vec<Broken>,
) -> Result<(), AllocError>
    requires values { AreOf s.now values.now }
    requires model { IsFor s.now.model links.old }
    requires can { CanPlaceAll s.now links.old.items placed.now }
    ensures items { OnOk result (links.new.items ≡ all_with s.now placed.now links.old.items) }
    ensures told { OnOk result (TellsAll told.old.items told.new.items links.old.broken links.new.broken) }
    ensures model { IsFor s.now.model links.new }
{
    for a in placed {
        place_one(s, values, links, a, told)?;
    }
    Ok(())
}

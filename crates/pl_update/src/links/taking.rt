//! Activities go out of a store one after another, and what that changes is told.
ghost use Rattle.std.specs.Prelude.{◌≡◌, ◌++◌, OnOk};
ghost use Rattle.pl_links.specs.Items.{without};
ghost use Rattle.pl_links.specs.Kept.{IsFor};
ghost use Rattle.pl_update.specs.Links.Telling.{TellsAll, all_without};

use pl_links::{Broken, Changes, Links};
use pl_model::Model;
use std::alloc::AllocError;

/// Tells what came and what went.
pub(crate) fn add_changes(changes: &Changes, told: &mut Vec<Broken>) -> Result<(), AllocError>
    ensures { OnOk result (told.new.items ≡ told.old.items ++ changes.now.came.items ++ changes.now.went.items) }
{
    told.extend_from_slice(changes.came.as_slice())?;
    told.extend_from_slice(changes.went.as_slice())?;
    Ok(())
}

// An activity that is not placed stays out.
fn take_one(
    model: &Model,
    links: &mut Links,
    id: u32,
    told: &mut Vec<Broken>,
) -> Result<(), AllocError>
    requires { IsFor model.now links.old }
    ensures items { OnOk result (links.new.items ≡ without id links.old.items) }
    ensures told { OnOk result (TellsAll told.old.items told.new.items links.old.broken links.new.broken) }
    ensures model { IsFor model.now links.new }
{
    let changes = links.take_telling(model, id)?;
    add_changes(&changes, told)?;
    Ok(())
}

/// Takes the activities of these ids out, as far as they are placed.
pub(crate) fn take_all(
    model: &Model,
    links: &mut Links,
    gone: &[u32],
    told: &mut Vec<Broken>,
) -> Result<(), AllocError>
    requires { IsFor model.now links.old }
    ensures items { OnOk result (links.new.items ≡ all_without gone.now links.old.items) }
    ensures told { OnOk result (TellsAll told.old.items told.new.items links.old.broken links.new.broken) }
    ensures model { IsFor model.now links.new }
{
    for id in gone {
        take_one(model, links, *id, told)?;
    }
    Ok(())
}

//! How many temporal links of an activity find no partner where it is placed.
ghost use Rattle.std.specs.Prelude.{◌≡◌, ◌≤◌, false, filter, length, IfSome};
ghost use Rattle.pl_links.specs.Broken.{lacks_partner, links_of};
ghost use Rattle.pl_semantics.specs.Links.{placed_in};
ghost use Rattle.pl_bounds.specs.Ties.{placed_at, count_of_lone, lone_then};

use pl_board::Board;
use pl_links::Placed;
use pl_model::{Link, Model};

fn links_of<'m>(model: &'m Model, own: &Placed) -> &'m [Link]
    ensures { result.now ≡ links_of model.now own.now }
{
    match model.kinds.as_slice().get(own.kind as usize) {
        Some(kind) => kind.links.as_slice(),
        None => &[],
    }
}

fn lacks_partner(board: &Board, own: &Placed, link: &Link) -> bool
    requires { board.now.spoiled ≡ false }
    ensures { result ≡ lacks_partner (placed_in board.now.state) own.now link.now }
{
    own.end.is_some() && !board.has_partner(own, link)
}

fn lone_of(board: &Board, own: &Placed) -> u32
    requires { board.now.spoiled ≡ false }
    ensures { result ≤ length (filter (lacks_partner (placed_in board.now.state) own.now) (links_of board.now.state.model own.now)) }
{
    let links = links_of(board.model(), own);
    let mut count: u32 = 0;
    for link in links {
        if lacks_partner(board, own, link) {
            count = count.saturating_add(1);
        }
    }
    count
}

/// The activity as it stands at another start, if it is firm and has an end there.
pub(crate) fn placed_at(own: &Placed, start: u32) -> Option<Placed>
    ensures { IfSome result (λ p. p ≡ placed_at start own.now) }
{
    let duration = own.end?.checked_sub(own.start)?;
    let end = start.checked_add(duration)?;
    Some(Placed {
        start,
        end: Some(end),
        ..*own
    })
}

// How many of its links find no partner, where the activity starts then.
fn lone_at(board: &Board, own: &Placed, start: u32) -> u32
    requires { board.now.spoiled ≡ false }
    ensures { result ≤ count_of_lone board.now.state start own.now }
{
    if links_of(board.model(), own).is_empty() {
        return 0;
    }
    match placed_at(own, start) {
        Some(placed) => lone_of(board, &placed),
        None => 0,
    }
}

/// How many links of an activity that is moved alone, or added, find no partner at this start. 0 if no activity is given.
pub(crate) fn lone_then(board: &Board, alone: Option<Placed>, start: u32) -> u32
    requires { board.now.spoiled ≡ false }
    ensures { result ≤ lone_then board.now.state start alone }
{
    match alone {
        Some(own) => lone_at(board, &own, start),
        None => 0,
    }
}

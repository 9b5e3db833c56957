//! The conflicts of links that stand, each with what decides whether a move leaves it.
ghost use Rattle.std.specs.Prelude.{◌≡◌, ◌++◌, false, option_to_list, IfOk, OnOk};
ghost use Rattle.pl_bounds.specs.Remaining.{kind_sought, listed, listed_links, temporal_one};

use pl_board::Board;
use pl_conflict::{Code, Conflict};
use std::alloc::{AllocError, Global};

/// A conflict of a temporal link or of an order: the activity that it tells of, and the kind of which the link seeks an activity. An order
/// of slots seeks none.
#[derive(Clone, Copy)]
pub(crate) struct LinkConflict {
    pub(crate) subject: u32,
    pub(crate) sought: Option<u32>,
}

// The kind that the link of this index seeks, of the activity of this id.
fn kind_sought(board: &Board, id: u32, index: u32) -> Option<u32>
    ensures { result ≡ kind_sought board.now.state id index }
{
    let a = board.plan().get(id)?;
    let kind = board.model().kinds.as_slice().get(a.kind as usize)?;
    let link = kind.links.as_slice().get(index as usize)?;
    Some(link.kind)
}

fn temporal_one(board: &Board, conflict: &Conflict) -> Option<LinkConflict>
    ensures { result ≡ temporal_one board.now.state conflict.now }
{
    let kind = kind_sought(board, conflict.subject, conflict.detail)?;
    Some(LinkConflict {
        subject: conflict.subject,
        sought: Some(kind),
    })
}

fn listed(board: &Board, conflict: &Conflict) -> Option<LinkConflict>
    ensures { result ≡ listed board.now.state conflict.now }
{
    match conflict.code {
        Code::Temporal => temporal_one(board, conflict),
        Code::Linked => Some(LinkConflict {
            subject: conflict.subject,
            sought: None,
        }),
        _ => None,
    }
}

fn add(board: &Board, conflict: &Conflict, all: &mut Vec<LinkConflict>) -> Result<(), AllocError>
    ensures { OnOk result (all.new.items ≡ all.old.items ++ option_to_list (listed board.now.state conflict.now)) }
{
    match listed(board, conflict) {
        Some(one) => Ok(all.push(one)?),
        None => Ok(()),
    }
}

/// The conflicts of links that stand, in their order.
pub(crate) fn listed_links(alloc: Global, board: &Board) -> Result<Vec<LinkConflict>, AllocError>
    requires { board.now.spoiled ≡ false }
    ensures { IfOk result (λ all. all.items ≡ listed_links board.now.state) }
{
    let mut all = Vec::new(alloc);
    for conflict in board.conflicts().iter() {
        add(board, conflict, &mut all)?;
    }
    Ok(all)
}

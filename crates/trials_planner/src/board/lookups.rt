//! What is asked of one activity: its end, the partners of its links, the starts that are tried for it.
use crate::asserting::is_printed;
use crate::reading::{number, sides};
use pl_board::Board;
use pl_cand::{places, spread};
use pl_model::{Link, Point};
use std::alloc::Global;

/// A link to an end of the first kind from so many moments before up to the start.
fn link_back(reach: u32) -> Link {
    Link {
        mine: Point::Start,
        kind: 0,
        theirs: Point::End,
        low: 0 - i64::from(reach),
        high: 0,
    }
}

/// Whether a live activity has this end, and a link that reaches back so far finds a partner for it.
pub fn has_partner(alloc: Global, board: &Board, row: &str) -> Option<bool> {
    let (asked, wanted) = sides(row);
    let mut rest = asked;
    let id = number(&mut rest);
    let link = link_back(number(&mut rest));
    if board.spoiled() {
        return None;
    }
    match board.placed(id) {
        Some(own) => {
            let finds = board.has_partner(&own, &link);
            is_printed(format!(in alloc; "{:?} {finds}", own.end), wanted)
        }
        None => Some(wanted == "none"),
    }
}

/// Whether these starts are tried for a live activity.
pub fn is_tried_at(alloc: Global, board: &Board, row: &str) -> Option<bool> {
    let (id, wanted) = sides(row);
    let id = id.parse().unwrap_or(0);
    if board.spoiled() || board.plan().get(id).is_none() {
        return None;
    }
    let found = places(alloc, board, id).ok()?;
    is_printed(format!(in alloc; "{found:?}"), wanted)
}

/// Whether these numbers are spread between two.
pub fn is_spread(alloc: Global, row: &str) -> Option<bool> {
    let (asked, wanted) = sides(row);
    let mut rest = asked;
    let low = number(&mut rest);
    let high = number(&mut rest);
    let found = spread(alloc, low, high).ok()?;
    is_printed(format!(in alloc; "{found:?}"), wanted)
}

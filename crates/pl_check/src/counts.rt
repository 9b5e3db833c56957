//! Checks that no part of a model stands more often than it may.
ghost use Rattle.std.specs.Prelude.{◌≡◌};
ghost use Rattle.pl_check.specs.Judgements.{Judgement, each, at_most};
ghost use Rattle.pl_check.specs.Counts.{nodes_of, room_after, few_nodes, counts_in_origin, counts_in_param, counts_in_reservation, counts_in_link, counts_in_binding, counts_in_slot, counts_in_order, counts_in_alternative, counts_in_kind, counts_in_state, counts_in_line, counts_in_items, counts_in};

use crate::fault::{ModelFault, What};
use pl_model::Name;
use pl_syntax::{
    Ast, AstAlternative, AstExpr, AstKind, AstLink, AstOrder, AstOrigin, AstParam, AstReservation,
    AstSlot, AstTimeline, Item,
};

const MOST_NODES: usize = 64;

const MOST_STATES: usize = 32;

const MOST_PARAMS: usize = 16;

const MOST_RESERVATIONS: usize = 32;

const MOST_LINKS: usize = 16;

const MOST_ALTERNATIVES: usize = 8;

const MOST_SLOTS: usize = 16;

const MOST_ORDERS: usize = 64;

const MOST_TIMELINES: usize = 256;

const MOST_KINDS: usize = 256;

/// What may hold too many parts.
trait Counted {
    ghost counted: { Self → Judgement };

    fn count(&self) -> Result<(), ModelFault>
        ensures { result ≡ counted self.now };
}

fn each<T: Counted>(items: &[T]) -> Result<(), ModelFault>
    ensures { result ≡ each T.counted items.now }
{
    for item in items {
        item.count()?;
    }
    Ok(())
}

fn at_most<T: Counted>(limit: usize, what: What, items: &[T]) -> Result<(), ModelFault>
    ensures { result ≡ at_most limit what T.counted items.now }
{
    for (place, item) in items.iter().enumerate() {
        if place >= limit {
            return Err(ModelFault::TooMany(what));
        }
        item.count()?;
    }
    Ok(())
}

/// The room that is left where each node of the expression takes one place.
fn spend(expr: &AstExpr, room: usize) -> Option<usize>
    ensures { result ≡ room_after room (nodes_of expr.now) }
{
    let room = room.checked_sub(1)?;
    match expr {
        AstExpr::Num(_) => Some(room),
        AstExpr::Name(_) => Some(room),
        AstExpr::Apply(_, left, right) => {
            let room = spend(left.get(), room)?;
            spend(right.get(), room)
        }
    }
}

impl Counted for AstExpr {
    ghost counted = { few_nodes };

    fn count(&self) -> Result<(), ModelFault> {
        match spend(self, MOST_NODES) {
            Some(_) => Ok(()),
            None => Err(ModelFault::TooMany(What::Nodes)),
        }
    }
}

impl Counted for AstParam {
    ghost counted = { counts_in_param };

    fn count(&self) -> Result<(), ModelFault> {
        match &self.origin {
            AstOrigin::Plain => Ok(()),
            AstOrigin::Default(_) => Ok(()),
            AstOrigin::Equals(value) => value.count(),
        }
    }
}

impl Counted for AstReservation {
    ghost counted = { counts_in_reservation };

    fn count(&self) -> Result<(), ModelFault> {
        match self {
            AstReservation::Take(_, amount) => amount.count(),
            AstReservation::Raise(_, amount, _) => amount.count(),
            AstReservation::Lower(_, amount, _) => amount.count(),
            AstReservation::Put(..) => Ok(()),
            AstReservation::Must(..) => Ok(()),
        }
    }
}

impl Counted for AstLink {
    ghost counted = { counts_in_link };

    fn count(&self) -> Result<(), ModelFault> {
        Ok(())
    }
}

impl Counted for (Name, AstExpr) {
    ghost counted = { counts_in_binding };

    fn count(&self) -> Result<(), ModelFault> {
        self.1.count()
    }
}

impl Counted for AstSlot {
    ghost counted = { counts_in_slot };

    fn count(&self) -> Result<(), ModelFault> {
        each(self.bindings.as_slice())
    }
}

impl Counted for AstOrder {
    ghost counted = { counts_in_order };

    fn count(&self) -> Result<(), ModelFault> {
        Ok(())
    }
}

impl Counted for AstAlternative {
    ghost counted = { counts_in_alternative };

    fn count(&self) -> Result<(), ModelFault> {
        at_most(MOST_SLOTS, What::Slots, self.slots.as_slice())?;
        at_most(MOST_ORDERS, What::Orders, self.orders.as_slice())
    }
}

impl Counted for Name {
    ghost counted = { counts_in_state };

    fn count(&self) -> Result<(), ModelFault> {
        Ok(())
    }
}

impl Counted for AstTimeline {
    ghost counted = { counts_in_line };

    fn count(&self) -> Result<(), ModelFault> {
        match self {
            AstTimeline::Capacity { .. } => Ok(()),
            AstTimeline::Level { .. } => Ok(()),
            AstTimeline::States { states, .. } => {
                at_most(MOST_STATES, What::States, states.as_slice())
            }
        }
    }
}

impl Counted for AstKind {
    ghost counted = { counts_in_kind };

    fn count(&self) -> Result<(), ModelFault> {
        at_most(MOST_PARAMS, What::Params, self.params.as_slice())?;
        self.duration.count()?;
        at_most(
            MOST_RESERVATIONS,
            What::Reservations,
            self.reservations.as_slice(),
        )?;
        at_most(MOST_LINKS, What::Links, self.links.as_slice())?;
        at_most(
            MOST_ALTERNATIVES,
            What::Alternatives,
            self.alternatives.as_slice(),
        )
    }
}

/// Whether no count passes its limit.
pub fn count_all(ast: &Ast) -> Result<(), ModelFault>
    ensures { result ≡ counts_in ast.now }
{
    let mut lines = 0;
    let mut kinds = 0;
    for item in ast.items.as_slice() {
        match item {
            Item::Timeline(line) => {
                if lines >= MOST_TIMELINES {
                    return Err(ModelFault::TooMany(What::Timelines));
                }
                line.count()?;
                lines += 1;
            }
            Item::Kind(kind) => {
                if kinds >= MOST_KINDS {
                    return Err(ModelFault::TooMany(What::Kinds));
                }
                kind.count()?;
                kinds += 1;
            }
        }
    }
    Ok(())
}

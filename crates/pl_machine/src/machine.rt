mod answering;
mod appending;
mod choosing;
mod closing;
mod committing;
mod copying;
mod executing;
mod fixing;
mod listening;
mod mending;
mod proposing;
mod reading;
mod repairing;
mod replying;
mod resting;
mod sending;

ghost use Rattle.std.specs.Prelude.{◌≡◌, [], ◌∷◌, false, IfOk};
ghost use Rattle.std.specs.Arc.{arc_value};
ghost use Rattle.pl_model.specs.Checked.{IsChecked};
ghost use Rattle.pl_entry.specs.Bounds.{AreOptions};
ghost use Rattle.pl_machine.specs.World.{fresh_world};
ghost use Rattle.pl_machine.specs.Legal.{opening};

use crate::round::Round;
use crate::schedule::Schedule;
use pl_board::Board;
use pl_entry::{Entry, Event, Reply};
use pl_facts::Options;
use pl_log::Log;
use pl_model::Model;
use pl_semantics::SharedModel;
use std::alloc::{AllocError, Global};
use std::sync::Arc;

/// A board with its log. Each event appends one entry with its reply. After want of memory a machine is spoiled for good.
#[derive(Drop)]
pub struct Machine {
    alloc: Global,
    // The board's model. It is kept here as well, since nothing is said of a spoiled board.
    model: SharedModel,
    board: Board,
    options: Options,
    schedule: Schedule,
    // How many of the commands that are due were sent.
    sent: usize,
    round: Round,
    done: bool,
    log: Log,
}

impl std::marker::Model for Machine {
    ghost use Rattle.std.specs.Prelude.{take};
    ghost use Rattle.pl_model.specs.contracts.expressions.Expr as e;
    ghost use Rattle.std.specs.Coded.{codes};
    ghost use Rattle.pl_machine.specs.Sound.{State, IsSound};

    ghost Value = { State };

    ghost coded = { Prim.hlevel (codes, e.the_row.coded) };

    ghost view = { λ m. record { spoiled = m.board.spoiled; model = m.model; log = m.log.entries; world = record { state = m.board.state; options = m.options; dispatched = take m.sent m.schedule.due.items; turn = m.round.turn; rested = m.round.rested; held = m.round.held; closed = m.round.closed; done = m.done; halted = m.round.halted } } };

    ghost invariant = { λ m. IsSound m.board.spoiled m.model m.log.entries (record { state = m.board.state; options = m.options; dispatched = take m.sent m.schedule.due.items; turn = m.round.turn; rested = m.round.rested; held = m.round.held; closed = m.round.closed; done = m.done; halted = m.round.halted }) m.schedule.due.items m.sent m.schedule.ahead m.schedule.ranges.items };
}

impl Machine {
    /// A machine over a checked model. Its log has the open entry alone.
    pub fn fresh(alloc: Global, model: Arc<Model>, options: Options) -> Result<Machine, AllocError>
        requires checked { IsChecked (arc_value model) }
        requires options { AreOptions options }
        ensures { IfOk result (λ m. m ≡ record { spoiled = false; model = arc_value model; log = opening options ∷ []; world = fresh_world (arc_value model) options }) }
    {
        let owner = model.clone()?;
        let shared = SharedModel::new(owner);
        let board = Board::new(alloc, model, options.live)?;
        let mut log = Log::new(alloc);
        log.reserve()?;
        log.push(Entry {
            event: Event::Opened(options),
            reply: Reply::Done,
        });
        Ok(Machine {
            alloc,
            model: shared,
            board,
            options,
            schedule: Schedule::new(alloc),
            sent: 0,
            round: Round::closed(),
            done: false,
            log,
        })
    }
}

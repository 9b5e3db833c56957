ghost use Rattle.std.specs.Prelude.{◌≡◌, ◌<◌, ◌≤◌, [], ◌∷◌, ◌++◌, false, true, IfOk, OnOk, OnErr};
ghost use Rattle.pl_entry.specs.Bounds.{IsEventInRange, IsReplyTo};
ghost use Rattle.pl_semantics.specs.Whole.{IsWhole};
ghost use Rattle.pl_board.specs.Boards.{after as board_of};
ghost use Rattle.pl_machine.specs.World.{due_in};
ghost use Rattle.pl_machine.specs.Calm.{IsAhead};
ghost use Rattle.pl_machine.specs.Changes.{changed, is_tick, CanChange, KeepsDue};
ghost use Rattle.pl_machine.specs.Keeping.{KeepsStanding};
ghost use Rattle.pl_machine.specs.Step.{reply_of, after};
ghost use Rattle.pl_machine.specs.Taking.{IsOpen, Spoils, Answers, with_round, with_state};

use crate::change::Change;
use crate::machine::Machine;
use crate::round::Round;
use crate::schedule::Schedule;
use crate::starting::ahead_after;
use crate::stop::Stop;
use pl_board::Board;
use pl_entry::{Entry, Event, Reply};
use pl_lists::Copied;
use pl_log::Log;
use pl_moves::make;
use pl_points::{Quiet, Steps};
use std::alloc::{AllocError, Global};

/// Appends an entry to a log, and gives the reply back.
fn log_entry(log: &mut Log, alloc: Global, event: Event, reply: Reply) -> Result<Reply, AllocError>
    ensures ok { OnOk result (log.new.entries ≡ log.old.entries ++ record { event = event; reply = reply } ∷ []) }
    ensures same { IfOk result (λ r. r ≡ reply) }
    ensures err { OnErr result (log.new.entries ≡ log.old.entries) }
{
    let again = reply.copy(alloc)?;
    log.reserve()?;
    log.push(Entry { event, reply });
    Ok(again)
}

/// Appends an entry. Want of memory spoils the board.
pub(crate) fn push_entry(
    log: &mut Log,
    board: &mut Board,
    alloc: Global,
    event: Event,
    reply: Reply,
) -> Result<Reply, AllocError>
    ensures ok { OnOk result (log.new.entries ≡ log.old.entries ++ record { event = event; reply = reply } ∷ []) }
    ensures same { IfOk result (λ r. r ≡ reply) }
    ensures stays { OnOk result (board.new ≡ board.old) }
    ensures err { OnErr result (log.new.entries ≡ log.old.entries) }
    ensures spoils { OnErr result (board.new ≡ record board.old { spoiled = true }) }
{
    match log_entry(log, alloc, event, reply) {
        Ok(reply) => Ok(reply),
        Err(fault) => {
            board.spoil();
            Err(fault)
        }
    }
}

/// Reserves the place of one more entry. Want of memory spoils the board.
pub(crate) fn reserve_entry(log: &mut Log, board: &mut Board) -> Result<(), AllocError>
    ensures same { log.new.entries ≡ log.old.entries }
    ensures place { OnOk result (log.new.has_place ≡ true) }
    ensures stays { OnOk result (board.new ≡ board.old) }
    ensures spoils { OnErr result (board.new.spoiled ≡ true) }
{
    match log.reserve() {
        Ok(()) => Ok(()),
        Err(fault) => {
            board.spoil();
            Err(fault)
        }
    }
}

/// Appends the entry of an event that was carried out, in the place that was reserved for it.
pub(crate) fn push_done(log: &mut Log, event: Event)
    requires { log.old.has_place ≡ true }
    ensures { log.new.entries ≡ log.old.entries ++ record { event = event; reply = Reply.Done } ∷ [] }
{
    let reply = Reply::Done;
    log.push(Entry { event, reply });
}

/// Makes a change of a board.
fn change_board(board: &mut Board, alloc: Global, change: Change) -> Result<(), AllocError>
    requires unspoiled { board.old.spoiled ≡ false }
    requires whole { IsWhole board.old.state }
    requires can { CanChange board.old.state change }
    ensures ok { OnOk result (board.new ≡ board_of (changed change board.old.state)) }
    ensures keeps { OnOk result (KeepsStanding board.old.state board.new.state) }
    ensures due { OnOk result (KeepsDue change board.old.state board.new.state) }
    ensures err { OnErr result (board.new.spoiled ≡ true) }
{
    let mut steps = Steps::new(Quiet);
    match change {
        Change::Accept(goal) => board.add_goal(goal),
        Change::Tell(line, value) => board.telemetry(line, value, &mut steps),
        Change::Tick(moment) => board.tick(moment, &mut steps),
        Change::Commit(h) => board.commit(h),
        Change::Repair(repair) => make(alloc, board, &repair, &mut steps),
        Change::Measure(id, moment) => board.until(id, moment, &mut steps),
        Change::Withdraw => board.withdraw(),
    }
}

/// Whether more commands may come to be due by the change.
fn is_tick(change: &Change) -> bool
    ensures { result ≡ is_tick change.now }
{
    match change {
        Change::Tick(_) => true,
        _ => false,
    }
}

/// Makes a change of a board, and brings the schedule up to date. Only by a tick more commands come to be due. Want of memory
/// spoils the board.
fn change_due(
    board: &mut Board,
    schedule: &mut Schedule,
    alloc: Global,
    change: Change,
) -> Result<(), AllocError>
    requires unspoiled { board.old.spoiled ≡ false }
    requires whole { IsWhole board.old.state }
    requires can { CanChange board.old.state change }
    requires listed { schedule.old.due.items ≡ due_in board.old.state }
    requires ahead { IsAhead board.old.state schedule.old.ahead schedule.old.ranges.items }
    ensures ok { OnOk result (board.new ≡ board_of (changed change board.old.state)) }
    ensures keeps { OnOk result (KeepsStanding board.old.state board.new.state) }
    ensures due { OnOk result (schedule.new.due.items ≡ due_in board.new.state) }
    ensures ahead { OnOk result (IsAhead board.new.state schedule.new.ahead schedule.new.ranges.items) }
    ensures same { OnErr result (schedule.new.due.items ≡ schedule.old.due.items) }
    ensures err { OnErr result (board.new.spoiled ≡ true) }
{
    let ticks = is_tick(&change);
    let before = board.state().moment;
    let ahead = ahead_after(&change, schedule.ahead);
    change_board(board, alloc, change)?;
    schedule.ahead = ahead;
    if ticks {
        schedule.keep_up(board, alloc, before)
    } else {
        Ok(())
    }
}

/// Makes a change of a board, brings the schedule up to date, and appends the entry. Its place in the log is reserved first.
fn push_change(
    log: &mut Log,
    board: &mut Board,
    schedule: &mut Schedule,
    alloc: Global,
    event: Event,
    change: Change,
) -> Result<(), AllocError>
    requires unspoiled { board.old.spoiled ≡ false }
    requires whole { IsWhole board.old.state }
    requires can { CanChange board.old.state change }
    requires listed { schedule.old.due.items ≡ due_in board.old.state }
    requires ahead { IsAhead board.old.state schedule.old.ahead schedule.old.ranges.items }
    ensures ok { OnOk result (log.new.entries ≡ log.old.entries ++ record { event = event; reply = Reply.Done } ∷ []) }
    ensures changed { OnOk result (board.new ≡ board_of (changed change board.old.state)) }
    ensures keeps { OnOk result (KeepsStanding board.old.state board.new.state) }
    ensures due { OnOk result (schedule.new.due.items ≡ due_in board.new.state) }
    ensures ahead { OnOk result (IsAhead board.new.state schedule.new.ahead schedule.new.ranges.items) }
    ensures err { OnErr result (log.new.entries ≡ log.old.entries) }
    ensures same { OnErr result (schedule.new.due.items ≡ schedule.old.due.items) }
    ensures spoils { OnErr result (board.new.spoiled ≡ true) }
{
    reserve_entry(log, board)?;
    change_due(board, schedule, alloc, change)?;
    push_done(log, event);
    Ok(())
}

impl Machine {
    pub(crate) fn spoil(&mut self) -> Stop
        ensures stop { result ≡ Stop.Memory }
        ensures spoils { Spoils self.old self.new }
    {
        self.board.spoil();
        Stop::Memory
    }

    /// Appends an event that leaves the plan state.
    pub(crate) fn append(&mut self, event: Event, reply: Reply, round: Round) -> Result<Reply, Stop>
        requires open { IsOpen self.old event }
        requires event { IsEventInRange self.old.model event }
        requires reply { IsReplyTo self.old.model event reply }
        requires answers { reply ≡ reply_of self.old.world event }
        requires leaves { with_round round self.old.world ≡ after self.old.world event }
        requires turn { round.turn ≤ self.old.world.options.turns }
        ensures { Answers self.old event result self.new }
    {
        let reply = push_entry(&mut self.log, &mut self.board, self.alloc, event, reply)?;
        self.round = round;
        Ok(reply)
    }

    /// Appends an event that changes the plan state. Its place in the log is reserved first.
    pub(crate) fn carry_out(
        &mut self,
        event: Event,
        change: Change,
        round: Round,
    ) -> Result<Reply, Stop>
        requires open { IsOpen self.old event }
        requires event { IsEventInRange self.old.model event }
        requires reply { IsReplyTo self.old.model event Reply.Done }
        requires answers { Reply.Done ≡ reply_of self.old.world event }
        requires whole { IsWhole self.old.world.state }
        requires can { CanChange self.old.world.state change }
        requires leaves { with_round round (with_state (changed change self.old.world.state) self.old.world) ≡ after self.old.world event }
        requires turn { round.turn ≤ self.old.world.options.turns }
        ensures { Answers self.old event result self.new }
    {
        push_change(
            &mut self.log,
            &mut self.board,
            &mut self.schedule,
            self.alloc,
            event,
            change,
        )?;
        self.round = round;
        Ok(Reply::Done)
    }
}

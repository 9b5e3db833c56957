//! What is answered to a message.
ghost use Rattle.std.specs.Prelude.{◌≡◌, ◌&&◌, nat_le, nat_lt, length, false, is_some, if◌then◌else◌};
ghost use Rattle.std.specs.List.{list_any};
ghost use Rattle.pl_facts.specs.Goals.{is_numbered};
ghost use Rattle.pl_entry.specs.Bounds.{IsInputReply};
ghost use Rattle.pl_semantics.specs.Whole.{IsWhole};
ghost use Rattle.pl_machine.specs.Messages.{goal_reply, tick_reply, end_reply, until_reply, message_reply};

use pl_board::Board;
use pl_entry::Reply;
use pl_facts::{Goal, Goals};
use pl_links::Placed;
use pl_msg::Message;
use pl_semantics::PlanState;

/// Whether a goal of this number was accepted.
fn is_taken(goals: &Goals, number: u32) -> bool
    ensures { result ≡ list_any (is_numbered number) goals.now }
{
    goals.get(number).is_some()
}

/// Whether as many goals as the limit were accepted.
fn are_full(goals: &Goals, limit: u32) -> bool
    ensures { result ≡ nat_le limit (length goals.now) }
{
    limit <= goals.len()
}

fn goal_reply(state: &PlanState, limit: u32, goal: &Goal) -> Reply
    requires { IsWhole state.now }
    ensures { result ≡ goal_reply state.now limit goal.now }
{
    if is_taken(&state.goals, goal.number) {
        Reply::DuplicateGoal
    } else if goal.latest < state.floor() {
        Reply::TooLate
    } else if are_full(&state.goals, limit) {
        Reply::TooManyGoals
    } else {
        Reply::Done
    }
}

fn tick_reply(state: &PlanState, moment: u64) -> Reply
    ensures { result ≡ tick_reply state.now moment }
{
    if moment <= u64::from(state.moment) {
        Reply::TickBack
    } else if u64::from(state.model.get().horizon) < moment {
        Reply::TickBeyond
    } else {
        Reply::Done
    }
}

/// Whether an activity, which is given with its end, has begun.
fn has_begun(state: &PlanState, activity: &Placed) -> bool
    ensures { result ≡ (nat_lt activity.now.start state.now.committed && (nat_le activity.now.start state.now.moment && is_some activity.now.end)) }
{
    activity.start < state.committed && (activity.start <= state.moment && activity.end.is_some())
}

fn end_reply(start: u32, moment: u32) -> Reply
    ensures { result ≡ end_reply start moment }
{
    if moment <= start {
        Reply::EndBack
    } else {
        Reply::Done
    }
}

/// The reply to the measured end of an activity, which is given with the end that it has.
fn placed_reply(state: &PlanState, activity: &Placed, moment: u32) -> Reply
    ensures { result ≡ (if nat_lt activity.now.start state.now.committed && (nat_le activity.now.start state.now.moment && is_some activity.now.end) then end_reply activity.now.start moment else Reply.NotBegun) }
{
    if has_begun(state, activity) {
        end_reply(activity.start, moment)
    } else {
        Reply::NotBegun
    }
}

fn live_reply(board: &Board, id: u32, moment: u32) -> Reply
    requires { board.now.spoiled ≡ false }
    ensures { result ≡ until_reply board.now.state id moment }
{
    match board.placed(id) {
        Some(activity) => placed_reply(board.state(), &activity, moment),
        None => Reply::NotBegun,
    }
}

/// The reply to the measured end of the activity of an id. No activity has an id that is too great for its type.
#[tactic(auto, using(crate::proofs::Measured::reply_to_great))]
fn until_reply(board: &Board, id: u64, moment: u32) -> Reply
    requires unspoiled { board.now.spoiled ≡ false }
    requires whole { IsWhole board.now.state }
    ensures { result ≡ until_reply board.now.state id moment }
{
    if id <= u64::from(u32::MAX) {
        live_reply(board, id as u32, moment)
    } else {
        Reply::NotBegun
    }
}

pub(crate) fn message_reply(board: &Board, limit: u32, message: &Message) -> Reply
    requires { board.now.spoiled ≡ false }
    ensures value { result ≡ message_reply board.now.state limit message.now }
    ensures input { IsInputReply result }
    ensures whole { IsWhole board.now.state }
{
    let state = board.state();
    match message {
        Message::Goal(goal) => goal_reply(state, limit, goal),
        Message::TeleLevel(_, _) | Message::TeleState(_, _) | Message::Halt => Reply::Done,
        Message::Tick(moment) => tick_reply(state, *moment),
        Message::Until(id, moment) => until_reply(board, *id, *moment),
        Message::End => Reply::Ended,
    }
}

ghost use Rattle.std.specs.Prelude.{◌≡◌, ◌<◌, not, nat_lt, IfOk, Some, length, true, false};
ghost use Rattle.pl_entry.specs.Bounds.{IsDispatchReply};
ghost use Rattle.pl_semantics.specs.PlanStates.{found, is_committed, row_of};
ghost use Rattle.pl_semantics.specs.Whole.{IsWhole};
ghost use Rattle.pl_machine.specs.World.{due_in};
ghost use Rattle.pl_machine.specs.Step.{all_sent, is_enabled, sent_of, reply_of};
ghost use Rattle.pl_machine.specs.Sending.{StartsLast};
ghost use Rattle.pl_machine.specs.Taking.{IsOpen, Answers};

use crate::machine::Machine;
use crate::machine::appending::push_entry;
use crate::ranges::word;
use crate::stop::Stop;
use pl_entry::{Event, Reply};
use pl_lists::{Copied, Items};
use pl_plan::Activity;
use std::alloc::AllocError;

impl Machine {
    /// Whether all that is due was sent.
    pub(crate) fn all_sent(&self) -> bool
        requires { self.now.spoiled ≡ false }
        ensures sent { result ≡ all_sent self.now.world }
        ensures due { result ≡ not (nat_lt (length self.now.world.dispatched) (length (due_in self.now.world.state))) }
    {
        self.schedule.due.len() <= self.sent
    }

    /// The command of an activity with these values.
    fn command_with(
        &self,
        activity: &Activity,
        values: &Items<Option<i64>>,
    ) -> Result<Reply, AllocError>
        requires unspoiled { self.now.spoiled ≡ false }
        requires whole { IsWhole self.now.world.state }
        requires found { found self.now.world.state activity.now.id ≡ Some activity.now }
        requires committed { is_committed self.now.world.state activity.now ≡ true }
        requires values { values.now ≡ row_of self.now.world.state activity.now }
        ensures sent { IfOk result (λ reply. reply ≡ sent_of self.now.world.state activity.now) }
        ensures reply { IfOk result (IsDispatchReply self.now.model) }
    {
        let values = values.copy(self.alloc)?;
        Ok(Reply::Sent {
            id: word(activity.id),
            kind: word(activity.kind),
            start: word(activity.start),
            values,
        })
    }

    /// The command of an activity.
    fn command_of(&self, activity: &Activity) -> Result<Reply, AllocError>
        requires unspoiled { self.now.spoiled ≡ false }
        requires whole { IsWhole self.now.world.state }
        requires found { found self.now.world.state activity.now.id ≡ Some activity.now }
        requires committed { is_committed self.now.world.state activity.now ≡ true }
        ensures sent { IfOk result (λ reply. reply ≡ sent_of self.now.world.state activity.now) }
        ensures reply { IfOk result (IsDispatchReply self.now.model) }
    {
        match self.board.evaluated(activity.id) {
            Some(evaluated) => self.command_with(activity, &evaluated.values),
            None => unreachable!(),
        }
    }

    fn send(&mut self, command: Reply) -> Result<Reply, Stop>
        requires open { IsOpen self.old Event.Dispatch }
        requires whole { IsWhole self.old.world.state }
        requires reply { IsDispatchReply self.old.model command }
        requires next { command ≡ reply_of self.old.world Event.Dispatch }
        ensures answers { Answers self.old Event.Dispatch result self.new }
        ensures starts { IfOk result (StartsLast self.old.world) }
    {
        let event = Event::Dispatch;
        let reply = push_entry(&mut self.log, &mut self.board, self.alloc, event, command)?;
        self.sent += 1;
        Ok(reply)
    }

    fn next_command(&self) -> Result<Reply, AllocError>
        requires unspoiled { self.now.spoiled ≡ false }
        requires left { length self.now.world.dispatched < length (due_in self.now.world.state) }
        ensures reply { IfOk result (IsDispatchReply self.now.model) }
        ensures next { IfOk result (λ reply. reply ≡ reply_of self.now.world Event.Dispatch) }
        ensures whole { IfOk result (λ _. IsWhole self.now.world.state) }
    {
        let state = self.board.state();
        let id = self.schedule.due[self.sent];
        match state.plan.get(id) {
            Some(activity) => self.command_of(activity),
            None => unreachable!(),
        }
    }

    /// Whether something that is due was not sent.
    fn is_left(&self) -> bool
        requires { self.now.spoiled ≡ false }
        ensures { result ≡ nat_lt (length self.now.world.dispatched) (length (due_in self.now.world.state)) }
    {
        self.sent < self.schedule.due.len()
    }

    /// Whether a command is to be sent.
    fn can_send(&self) -> bool
        requires { self.now.spoiled ≡ false }
        ensures { result ≡ is_enabled self.now.world Event.Dispatch }
    {
        !self.round.closed && self.is_left()
    }

    /// Sends the next due command, whose start is no earlier than that of any that was sent.
    pub fn dispatch(&mut self) -> Result<Reply, Stop>
        ensures answers { Answers self.old Event.Dispatch result self.new }
        ensures starts { IfOk result (StartsLast self.old.world) }
    {
        if self.spoiled() {
            return Err(Stop::Spoiled);
        }
        self.admit(self.can_send())?;
        match self.next_command() {
            Err(_) => Err(self.spoil()),
            Ok(command) => self.send(command),
        }
    }
}

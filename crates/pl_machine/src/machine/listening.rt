ghost use Rattle.std.specs.Prelude.{◌≡◌, ◌≢◌, ◌≤◌, ◌&&◌, not, true, IfOk, IfSome, Ok, Some};
ghost use Rattle.std.specs.Option.{option_copied};
ghost use Rattle.pl_entry.specs.Bounds.{IsMessageLine, IsInputReply, IsEventInRange, IsReplyTo};
ghost use Rattle.pl_msg.specs.Messages.{message_of};
ghost use Rattle.pl_msg.specs.Limits.{IsWithin};
ghost use Rattle.pl_semantics.specs.Whole.{IsWhole};
ghost use Rattle.pl_machine.specs.Changes.{changed, CanChange};
ghost use Rattle.pl_machine.specs.Messages.{until_reply, message_reply, line_reply, told_line, halts_line};
ghost use Rattle.pl_machine.specs.Step.{input_reply, reply_of, after};
ghost use Rattle.pl_machine.specs.Taking.{IsOpen, Answers};

use crate::change::Change;
use crate::machine::Machine;
use crate::machine::appending::push_entry;
use crate::machine::replying::message_reply;
use crate::round::Round;
use crate::stop::Stop;
use pl_entry::{Bytes, Event, Reply};
use pl_lists::Items;
use pl_msg::{Message, ParseFault, read_message};
use std::alloc::{AllocError, Global};

fn line_bytes(alloc: Global, line: &[u8]) -> Result<Bytes, AllocError>
    ensures { IfOk result (λ bytes. bytes ≡ line.now) }
{
    let bytes = Vec::from_slice(alloc, line)?;
    Ok(Items::from_vec(bytes))
}

fn input_bytes(alloc: Global, line: Option<&[u8]>) -> Result<Option<Bytes>, AllocError>
    ensures { IfOk result (λ bytes. bytes ≡ option_copied line.entry) }
{
    match line {
        None => Ok(None),
        Some(line) => Ok(Some(line_bytes(alloc, line)?)),
    }
}

impl Machine {
    /// The input is over.
    fn end(&mut self, line: Option<&[u8]>) -> Result<Reply, Stop>
        requires open { IsOpen self.old (Event.Input (option_copied line)) }
        requires line { IfSome (option_copied line) IsMessageLine }
        requires ended { input_reply self.old.world (option_copied line) ≡ Reply.Ended }
        ensures { Answers self.old (Event.Input (option_copied line.entry)) result self.new }
    {
        match input_bytes(self.alloc, line) {
            Err(_) => Err(self.spoil()),
            Ok(bytes) => self.finish(Event::Input(bytes)),
        }
    }

    /// Appends the end of the input.
    fn finish(&mut self, event: Event) -> Result<Reply, Stop>
        requires open { IsOpen self.old event }
        requires event { IsEventInRange self.old.model event }
        requires reply { IsReplyTo self.old.model event Reply.Ended }
        requires ended { Reply.Ended ≡ reply_of self.old.world event }
        requires leaves { record self.old.world { done = true } ≡ after self.old.world event }
        ensures { Answers self.old event result self.new }
    {
        let reply = push_entry(
            &mut self.log,
            &mut self.board,
            self.alloc,
            event,
            Reply::Ended,
        )?;
        self.done = true;
        Ok(reply)
    }

    /// A line is refused, and a round begins.
    fn refuse(&mut self, line: &[u8], refusal: Reply) -> Result<Reply, Stop>
        requires open { IsOpen self.old (Event.Input (Some line.now)) }
        requires line { IsMessageLine line.now }
        requires refused { line_reply self.old.world.state self.old.world.options.goals line.now ≡ refusal }
        requires input { IsInputReply refusal }
        requires not_done { refusal ≢ Reply.Done }
        requires not_ended { refusal ≢ Reply.Ended }
        ensures { Answers self.old (Event.Input (Some line.now)) result self.new }
    {
        match line_bytes(self.alloc, line) {
            Err(_) => Err(self.spoil()),
            Ok(bytes) => self.append(
                Event::Input(Some(bytes)),
                refusal,
                Round::begun(self.round.halted),
            ),
        }
    }

    /// A line is accepted: the plan state changes, and a round begins.
    fn begin(&mut self, line: &[u8], change: Change, halted: bool) -> Result<Reply, Stop>
        requires open { IsOpen self.old (Event.Input (Some line.now)) }
        requires line { IsMessageLine line.now }
        requires done { line_reply self.old.world.state self.old.world.options.goals line.now ≡ Reply.Done }
        requires whole { IsWhole self.old.world.state }
        requires can { CanChange self.old.world.state change }
        requires told { told_line self.old.world.state line.now ≡ changed change self.old.world.state }
        requires halts { halts_line self.old.world.state self.old.world.halted line.now ≡ halted }
        ensures { Answers self.old (Event.Input (Some line.now)) result self.new }
    {
        match line_bytes(self.alloc, line) {
            Err(_) => Err(self.spoil()),
            Ok(bytes) => self.carry_out(Event::Input(Some(bytes)), change, Round::begun(halted)),
        }
    }

    /// The measured end of an activity that has begun is accepted.
    #[tactic(auto, using(crate::proofs::Measured::can_until, crate::proofs::Measured::until_below), unfolding(crate::specs::Messages::line_reply, crate::specs::Messages::told_line, crate::specs::Messages::halts_line))]
    fn accept_end(&mut self, line: &[u8], id: u64, moment: u32) -> Result<Reply, Stop>
        requires open { IsOpen self.old (Event.Input (Some line.now)) }
        requires line { IsMessageLine line.now }
        requires message { message_of self.old.world.state.model line.now ≡ Ok (Message.Until id moment) }
        requires within { moment ≤ self.old.world.state.model.horizon }
        requires whole { IsWhole self.old.world.state }
        requires done { until_reply self.old.world.state id moment ≡ Reply.Done }
        ensures { Answers self.old (Event.Input (Some line.now)) result self.new }
    {
        let halted = self.round.halted;
        self.begin(line, Change::Measure(id as u32, moment), halted)
    }

    #[tactic(auto, using(crate::proofs::Inputs::can_accept, crate::proofs::Inputs::can_tell_level, crate::proofs::Inputs::can_tell_state, crate::proofs::Inputs::can_tick), unfolding(crate::specs::Messages::line_reply, crate::specs::Messages::told_line, crate::specs::Messages::halts_line))]
    fn accept(&mut self, line: &[u8], message: Message) -> Result<Reply, Stop>
        requires open { IsOpen self.old (Event.Input (Some line.now)) }
        requires line { IsMessageLine line.now }
        requires message { message_of self.old.world.state.model line.now ≡ Ok message }
        requires within { IsWithin self.old.world.state.model message }
        requires whole { IsWhole self.old.world.state }
        requires done { message_reply self.old.world.state self.old.world.options.goals message ≡ Reply.Done }
        ensures { Answers self.old (Event.Input (Some line.now)) result self.new }
    {
        let halted = self.round.halted;
        match message {
            Message::Goal(goal) => self.begin(line, Change::Accept(goal), halted),
            Message::TeleLevel(timeline, value) => {
                self.begin(line, Change::Tell(timeline, value), halted)
            }
            Message::TeleState(timeline, state) => {
                self.begin(line, Change::Tell(timeline, i64::from(state)), halted)
            }
            Message::Tick(moment) => self.begin(line, Change::Tick(moment as u32), false),
            Message::Until(id, moment) => self.accept_end(line, id, moment),
            Message::Halt => self.begin(line, Change::Withdraw, true),
            Message::End => self.end(Some(line)),
        }
    }

    #[tactic(auto, unfolding(crate::specs::Messages::line_reply))]
    fn take_message(&mut self, line: &[u8], message: Message) -> Result<Reply, Stop>
        requires open { IsOpen self.old (Event.Input (Some line.now)) }
        requires line { IsMessageLine line.now }
        requires message { message_of self.old.world.state.model line.now ≡ Ok message }
        requires within { IsWithin self.old.world.state.model message }
        ensures { Answers self.old (Event.Input (Some line.now)) result self.new }
    {
        match message_reply(&self.board, self.options.goals, &message) {
            Reply::Done => self.accept(line, message),
            Reply::Ended => self.end(Some(line)),
            refusal => self.refuse(line, refusal),
        }
    }

    #[tactic(auto, using(pl_msg::proofs::Naming::is_numbered_model), unfolding(crate::specs::Messages::line_reply))]
    fn take_line(&mut self, line: &[u8]) -> Result<Reply, Stop>
        requires open { IsOpen self.old (Event.Input (Some line.now)) }
        requires line { IsMessageLine line.now }
        ensures { Answers self.old (Event.Input (Some line.now)) result self.new }
    {
        match read_message(self.alloc, line, self.board.model()) {
            Ok(message) => self.take_message(line, message),
            Err(ParseFault::BadLine) => self.refuse(line, Reply::BadLine),
            Err(ParseFault::UnknownName) => self.refuse(line, Reply::UnknownName),
            Err(ParseFault::OutOfRange) => self.refuse(line, Reply::Range),
            Err(ParseFault::Memory) => Err(self.spoil()),
        }
    }

    /// Whether a message is taken.
    fn can_listen(&self) -> bool
        ensures { result ≡ (self.now.world.closed && not self.now.world.done) }
    {
        self.round.closed && !self.done
    }

    /// Takes a message line, or the end of the input.
    pub fn input(&mut self, line: Option<&[u8]>) -> Result<Reply, Stop>
        requires { IfSome (option_copied line) IsMessageLine }
        ensures { Answers self.old (Event.Input (option_copied line.entry)) result self.new }
    {
        self.admit(self.can_listen())?;
        match line {
            None => self.end(None),
            Some(line) => self.take_line(line),
        }
    }
}

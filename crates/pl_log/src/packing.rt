ghost use Rattle.std.specs.Prelude.{◌≡◌, ◌<◌, nat_lt, [], length, OnOk, if◌then◌else◌};
ghost use Rattle.pl_log.specs.Packing.{is_done, short, kept, fix, fix_of, message_of, command_of, input_packed, rest_packed, dispatch_packed, packed_of, Adds};

use crate::form::{Form, MoveForm};
use crate::parts::Parts;
use pl_conflict::Conflict;
use pl_entry::{Bytes, Entry, Event, Reply};
use pl_lists::Copied;
use pl_plan::RepairMove;
use std::alloc::{AllocError, Global};

/// An entry with a line or a list of values of this length or more is kept whole. No message is as long, and no command has as many values.
const LONG: usize = 65_536;

fn is_done(reply: &Reply) -> bool
    ensures { result ≡ is_done reply.now }
{
    match reply {
        Reply::Done => true,
        _ => false,
    }
}

impl Parts {
    pub(crate) fn new(alloc: Global) -> Parts
        ensures forms { result.forms.items ≡ [] }
        ensures numbers { result.numbers.items ≡ [] }
        ensures bytes { result.bytes.items ≡ [] }
        ensures values { result.values.items ≡ [] }
        ensures whole { result.whole.items ≡ [] }
    {
        Parts {
            forms: Vec::new(alloc),
            numbers: Vec::new(alloc),
            bytes: Vec::new(alloc),
            values: Vec::new(alloc),
            whole: Vec::new(alloc),
        }
    }

    // Puts a form, with what it has in the other parts.
    #[tactic(auto, using(crate::proofs::Adding::nothing_added))]
    fn put_parts(
        &mut self,
        form: Form,
        numbers: &[u32],
        bytes: &[u8],
        values: &[Option<i64>],
    ) -> Result<(), AllocError>
        ensures { OnOk result (Adds (record { form = form; numbers = numbers.now; bytes = bytes.now; values = values.now; whole = [] }) self.old self.new) }
    {
        self.forms.push(form)?;
        self.numbers.extend_from_slice(numbers)?;
        self.bytes.extend_from_slice(bytes)?;
        self.values.extend_from_slice(values)?;
        Ok(())
    }

    fn put_short(&mut self, form: Form, numbers: &[u32]) -> Result<(), AllocError>
        ensures { OnOk result (Adds (short form numbers.now) self.old self.new) }
    {
        self.put_parts(form, numbers, &[], &[])
    }

    #[tactic(auto, using(crate::proofs::Adding::nothing_added))]
    fn put_whole(&mut self, alloc: Global, entry: &Entry) -> Result<(), AllocError>
        ensures { OnOk result (Adds (kept entry.now) self.old self.new) }
    {
        self.forms.push(Form::Whole)?;
        self.whole.push(entry.copy(alloc)?)?;
        Ok(())
    }

    // Puts a repair: the numbers of its conflict, and then its own.
    #[tactic(auto, using(crate::proofs::Adding::numbers_added))]
    fn put_fix_with(
        &mut self,
        conflict: &Conflict,
        form: MoveForm,
        numbers: &[u32],
        values: &[Option<i64>],
    ) -> Result<(), AllocError>
        ensures { OnOk result (Adds (record (fix conflict.now form numbers.now) { values = values.now }) self.old self.new) }
    {
        self.numbers.extend_from_slice(&[
            conflict.from,
            conflict.subject,
            conflict.detail,
            conflict.a,
            conflict.b,
        ])?;
        self.put_parts(Form::Fix(conflict.code, form), numbers, &[], values)?;
        Ok(())
    }

    fn put_fix_of(
        &mut self,
        conflict: &Conflict,
        form: MoveForm,
        numbers: &[u32],
    ) -> Result<(), AllocError>
        ensures { OnOk result (Adds (fix conflict.now form numbers.now) self.old self.new) }
    {
        self.put_fix_with(conflict, form, numbers, &[])
    }

    fn put_fix(&mut self, conflict: &Conflict, repair: &RepairMove) -> Result<(), AllocError>
        ensures { OnOk result (Adds (fix_of conflict.now repair.now) self.old self.new) }
    {
        match *repair {
            RepairMove::Add {
                kind,
                start,
                goal: None,
            } => self.put_fix_of(conflict, MoveForm::Add, &[kind, start]),
            RepairMove::Add {
                kind,
                start,
                goal: Some(goal),
            } => self.put_fix_of(conflict, MoveForm::AddFor, &[kind, start, goal]),
            RepairMove::Delete { id } => self.put_fix_of(conflict, MoveForm::Delete, &[id]),
            RepairMove::Shift { id, start } => {
                self.put_fix_of(conflict, MoveForm::Shift, &[id, start])
            }
            RepairMove::Detail { id, alternative } => {
                self.put_fix_of(conflict, MoveForm::Detail, &[id, alternative])
            }
            RepairMove::Abstract { id } => self.put_fix_of(conflict, MoveForm::Abstract, &[id]),
            RepairMove::Assign { id, param, value } => {
                self.put_fix_with(conflict, MoveForm::Assign(param), &[id], &[Some(value)])
            }
            RepairMove::Drop { goal } => self.put_fix_of(conflict, MoveForm::Drop, &[goal]),
        }
    }

    fn put_message(&mut self, line: &[u8]) -> Result<(), AllocError>
        requires { length line.now < 65536 }
        ensures { OnOk result (Adds (message_of line.now) self.old self.new) }
    {
        self.put_parts(Form::Message, &[line.len() as u32], line, &[])
    }

    fn put_command(
        &mut self,
        id: u32,
        kind: u32,
        start: u32,
        values: &[Option<i64>],
    ) -> Result<(), AllocError>
        requires { length values.now < 65536 }
        ensures { OnOk result (Adds (command_of id kind start values.now) self.old self.new) }
    {
        let numbers = [id, kind, start, values.len() as u32];
        self.put_parts(Form::Command, &numbers, &[], values)
    }

    // A message that was taken.
    fn put_line(&mut self, alloc: Global, entry: &Entry, line: &[u8]) -> Result<(), AllocError>
        ensures { OnOk result (Adds (if nat_lt (length line.now) 65536 then message_of line.now else kept entry.now) self.old self.new) }
    {
        if line.len() < LONG {
            self.put_message(line)
        } else {
            self.put_whole(alloc, entry)
        }
    }

    fn put_input(
        &mut self,
        alloc: Global,
        entry: &Entry,
        line: &Option<Bytes>,
    ) -> Result<(), AllocError>
        ensures { OnOk result (Adds (input_packed entry.now line.now entry.now.reply) self.old self.new) }
    {
        match line {
            None => self.put_whole(alloc, entry),
            Some(line) => {
                if is_done(&entry.reply) {
                    self.put_line(alloc, entry, line.as_slice())
                } else {
                    self.put_whole(alloc, entry)
                }
            }
        }
    }

    fn put_repair(
        &mut self,
        alloc: Global,
        entry: &Entry,
        conflict: &Conflict,
        repair: &RepairMove,
    ) -> Result<(), AllocError>
        ensures { OnOk result (Adds (if is_done entry.now.reply then fix_of conflict.now repair.now else kept entry.now) self.old self.new) }
    {
        if is_done(&entry.reply) {
            self.put_fix(conflict, repair)
        } else {
            self.put_whole(alloc, entry)
        }
    }

    fn put_rest(&mut self, alloc: Global, entry: &Entry) -> Result<(), AllocError>
        ensures { OnOk result (Adds (rest_packed entry.now entry.now.reply) self.old self.new) }
    {
        match entry.reply {
            Reply::Rested(reason) => self.put_short(Form::Rest(reason), &[]),
            _ => self.put_whole(alloc, entry),
        }
    }

    // A command that was sent.
    fn put_sent(
        &mut self,
        alloc: Global,
        entry: &Entry,
        id: u32,
        kind: u32,
        start: u32,
        values: &[Option<i64>],
    ) -> Result<(), AllocError>
        ensures { OnOk result (Adds (if nat_lt (length values.now) 65536 then command_of id kind start values.now else kept entry.now) self.old self.new) }
    {
        if values.len() < LONG {
            self.put_command(id, kind, start, values)
        } else {
            self.put_whole(alloc, entry)
        }
    }

    fn put_dispatch(&mut self, alloc: Global, entry: &Entry) -> Result<(), AllocError>
        ensures { OnOk result (Adds (dispatch_packed entry.now entry.now.reply) self.old self.new) }
    {
        match &entry.reply {
            Reply::Sent {
                id,
                kind,
                start,
                values,
            } => self.put_sent(alloc, entry, *id, *kind, *start, values.as_slice()),
            _ => self.put_whole(alloc, entry),
        }
    }

    // An entry that is short where it was done.
    fn put_if_done(
        &mut self,
        alloc: Global,
        entry: &Entry,
        form: Form,
        numbers: &[u32],
    ) -> Result<(), AllocError>
        ensures { OnOk result (Adds (if is_done entry.now.reply then short form numbers.now else kept entry.now) self.old self.new) }
    {
        if is_done(&entry.reply) {
            self.put_short(form, numbers)
        } else {
            self.put_whole(alloc, entry)
        }
    }

    /// Puts an entry behind the others.
    pub(crate) fn put(&mut self, alloc: Global, entry: &Entry) -> Result<(), AllocError>
        ensures { OnOk result (Adds (packed_of entry.now) self.old self.new) }
    {
        match &entry.event {
            Event::Opened(_) => self.put_whole(alloc, entry),
            Event::Input(line) => self.put_input(alloc, entry, line),
            Event::Fix(conflict, repair) => self.put_repair(alloc, entry, conflict, repair),
            Event::Rest => self.put_rest(alloc, entry),
            Event::Commit(moment) => self.put_if_done(alloc, entry, Form::Commit, &[*moment]),
            Event::Dispatch => self.put_dispatch(alloc, entry),
            Event::Close => self.put_if_done(alloc, entry, Form::Close, &[]),
        }
    }
}

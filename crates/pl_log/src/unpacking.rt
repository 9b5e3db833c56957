ghost use Rattle.std.specs.Prelude.{◌≡◌, drop, IfOk};
ghost use Rattle.pl_entry.specs.declared.reply.Reply.TheVariants.{Done};
ghost use Rattle.pl_log.specs.declared.form.Form.TheVariants.{Message, Command};
ghost use Rattle.pl_log.specs.Unpacking.{first_whole, entry_in, numbers_of_move, numbers_of, bytes_of, values_of_move, values_of, whole_of};

use crate::form::{Form, MoveForm};
use crate::reading::{after, conflict_in, first_of, move_in, number_at};
use pl_entry::{Entry, Event, Reply};
use pl_lists::{Copied, Items};
use std::alloc::{AllocError, Global};

/// What is left of the parts of packed entries.
#[derive(Drop)]
pub(crate) struct Rest<'a> {
    pub(crate) numbers: &'a [u32],
    pub(crate) bytes: &'a [u8],
    pub(crate) values: &'a [Option<i64>],
    pub(crate) whole: &'a [Entry],
}

fn first_whole(alloc: Global, whole: &[Entry]) -> Result<Entry, AllocError>
    ensures { IfOk result (λ e. e ≡ first_whole whole.now) }
{
    match whole {
        [first, ..] => first.copy(alloc),
        [] => Ok(done(Event::Close)),
    }
}

fn done(event: Event) -> Entry
    ensures { result ≡ record { event = event; reply = Done } }
{
    Entry {
        event,
        reply: Reply::Done,
    }
}

fn numbers_of_move(form: MoveForm) -> usize
    ensures { result ≡ numbers_of_move form }
{
    match form {
        MoveForm::Add => 7,
        MoveForm::AddFor => 8,
        MoveForm::Delete => 6,
        MoveForm::Shift => 7,
        MoveForm::Detail => 7,
        MoveForm::Abstract => 6,
        MoveForm::Assign(_) => 6,
        MoveForm::Drop => 6,
    }
}

fn numbers_of(form: Form) -> usize
    ensures { result ≡ numbers_of form }
{
    match form {
        Form::Whole => 0,
        Form::Message => 1,
        Form::Fix(_, repair) => numbers_of_move(repair),
        Form::Rest(_) => 0,
        Form::Commit => 1,
        Form::Command => 4,
        Form::Close => 0,
    }
}

fn bytes_of(form: Form, numbers: &[u32]) -> usize
    ensures { result ≡ bytes_of form numbers.now }
{
    match form {
        Form::Message => number_at(numbers, 0) as usize,
        _ => 0,
    }
}

fn values_of_move(form: MoveForm) -> usize
    ensures { result ≡ values_of_move form }
{
    match form {
        MoveForm::Assign(_) => 1,
        _ => 0,
    }
}

fn values_of(form: Form, numbers: &[u32]) -> usize
    ensures { result ≡ values_of form numbers.now }
{
    match form {
        Form::Fix(_, repair) => values_of_move(repair),
        Form::Command => number_at(numbers, 3) as usize,
        _ => 0,
    }
}

fn whole_of(form: Form) -> usize
    ensures { result ≡ whole_of form }
{
    match form {
        Form::Whole => 1,
        _ => 0,
    }
}

impl<'a> Rest<'a> {
    fn message(&self, alloc: Global) -> Result<Entry, AllocError>
        ensures { IfOk result (λ e. e ≡ entry_in Message self.now.numbers.now self.now.bytes.now self.now.values.now self.now.whole.now) }
    {
        let line = first_of(self.bytes, number_at(self.numbers, 0) as usize);
        let line = Items::from_vec(Vec::from_slice(alloc, line)?);
        Ok(done(Event::Input(Some(line))))
    }

    fn command(&self, alloc: Global) -> Result<Entry, AllocError>
        ensures { IfOk result (λ e. e ≡ entry_in Command self.now.numbers.now self.now.bytes.now self.now.values.now self.now.whole.now) }
    {
        let values = first_of(self.values, number_at(self.numbers, 3) as usize);
        let reply = Reply::Sent {
            id: number_at(self.numbers, 0),
            kind: number_at(self.numbers, 1),
            start: number_at(self.numbers, 2),
            values: Items::from_vec(Vec::from_slice(alloc, values)?),
        };
        Ok(Entry {
            event: Event::Dispatch,
            reply,
        })
    }

    /// The entry that comes next, which has this form.
    pub(crate) fn entry(&self, alloc: Global, form: Form) -> Result<Entry, AllocError>
        ensures { IfOk result (λ e. e ≡ entry_in form self.now.numbers.now self.now.bytes.now self.now.values.now self.now.whole.now) }
    {
        match form {
            Form::Whole => first_whole(alloc, self.whole),
            Form::Message => self.message(alloc),
            Form::Fix(code, repair) => Ok(done(Event::Fix(
                conflict_in(code, self.numbers),
                move_in(repair, self.numbers, self.values),
            ))),
            Form::Rest(reason) => Ok(Entry {
                event: Event::Rest,
                reply: Reply::Rested(reason),
            }),
            Form::Commit => Ok(done(Event::Commit(number_at(self.numbers, 0)))),
            Form::Command => self.command(alloc),
            Form::Close => Ok(done(Event::Close)),
        }
    }

    /// What is left behind an entry of this form.
    pub(crate) fn behind(&self, form: Form) -> Rest<'a>
        ensures numbers { result.numbers.now ≡ drop (numbers_of form) self.now.numbers.now }
        ensures bytes { result.bytes.now ≡ drop (bytes_of form self.now.numbers.now) self.now.bytes.now }
        ensures values { result.values.now ≡ drop (values_of form self.now.numbers.now) self.now.values.now }
        ensures whole { result.whole.now ≡ drop (whole_of form) self.now.whole.now }
    {
        Rest {
            numbers: after(self.numbers, numbers_of(form)),
            bytes: after(self.bytes, bytes_of(form, self.numbers)),
            values: after(self.values, values_of(form, self.numbers)),
            whole: after(self.whole, whole_of(form)),
        }
    }
}

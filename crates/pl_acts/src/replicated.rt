//! A machine with the marks of its entries, that lends replicas of itself.
ghost use Rattle.std.specs.Prelude.{◌≡◌, ◌<◌, ◌≤◌, length, [], false, IfOk, IfErr, IfSome, OnOk, OnErr};
ghost use Rattle.std.specs.Option.{option_copied};
ghost use Rattle.pl_marks.specs.Authors.{IsAuthor};
ghost use Rattle.pl_entry.specs.declared.event.Event.TheVariants as event;
ghost use Rattle.pl_entry.specs.Bounds.{IsMessageLine};
ghost use Rattle.pl_machine.specs.Choices.{event_of};
ghost use Rattle.pl_machine.specs.Repairs.{IsMoveOf};
ghost use Rattle.pl_acts.specs.Replicas.{IsReplica, IsDraft};
ghost use Rattle.pl_acts.specs.Items.{signed_on};
ghost use Rattle.pl_acts.specs.Signing.{IsTied, TakesBack, HasSameLog, SignedAnswers, RepairsSigned};

use crate::draft::Draft;
use crate::planners::Planners;
use pl_cand::{Chooser, Proposal};
use pl_entry::Reply;
use pl_machine::{Choice, Machine, Repaired, Stop};
use pl_marks::{Author, Marks};
use std::alloc::{AllocError, Global};

/// A machine, who made its entries, and replicas of it that have made the first events of its log: as many as are lent at one time, once each
/// has come back. Contracts see the machine and who made its entries.
#[derive(Drop)]
pub struct Replicated {
    machine: Machine,
    marks: Marks,
    replicas: Vec<Machine>,
    planners: Planners,
}

impl std::marker::Model for Replicated {
    ghost use Rattle.std.specs.Coded.{codes};
    ghost use Rattle.pl_model.specs.contracts.expressions.Expr as e;
    ghost use Rattle.pl_acts.specs.Signing.{Written, IsWritten};

    ghost Value = { Written };

    ghost coded = { Prim.hlevel (codes, e.the_row.coded) };

    ghost view = { λ r. record { machine = r.machine; signs = r.marks } };

    ghost invariant = { λ r. IsWritten r.replicas.items (record { machine = r.machine; signs = r.marks }) };
}

/// The log is short, whatever was done: a look at it shows that.
#[tactic(auto, using(pl_machine::proofs::ShortLogs::log_is_some, pl_machine::proofs::ShortLogs::log_is_short))]
fn is_short(machine: &Machine)
    ensures some { 0 < length machine.now.log }
    ensures short { length machine.now.log ≤ 250000 }
{
    let _log = machine.log();
}

/// The replica that there is, or a new one.
fn replica_of(
    alloc: Global,
    machine: &Machine,
    replica: Option<Machine>,
) -> Result<Machine, AllocError>
    requires unspoiled { machine.now.spoiled ≡ false }
    requires replica { IfSome replica (IsReplica machine.now) }
    ensures { IfOk result (IsReplica machine.now) }
{
    match replica {
        Some(replica) => Ok(replica),
        None => machine.copy(alloc),
    }
}

/// Marks the entry of the next event.
#[tactic(auto, using(crate::proofs::Signing::few))]
fn sign(machine: &Machine, marks: &mut Marks, by: Author) -> Result<(), Stop>
    requires author { IsAuthor by }
    requires tied { IsTied (record { machine = machine.now; signs = marks.old }) }
    ensures ok { OnOk result (marks.new ≡ signed_on by marks.old) }
    ensures err { IfErr result (λ e. (e ≡ Stop.Memory) × (marks.new ≡ marks.old)) }
{
    is_short(machine);
    marks.push(by)?;
    Ok(())
}

/// Takes the mark of an event back where the event was refused.
fn unless_refused<T>(marks: &mut Marks, answer: Result<T, Stop>) -> Result<T, Stop>
    requires { 0 < length marks.old.authors }
    ensures same { result ≡ answer }
    ensures ok { OnOk answer (marks.new ≡ marks.old) }
    ensures err { OnErr answer (TakesBack marks.old marks.new) }
{
    match answer {
        Ok(value) => Ok(value),
        Err(stop) => {
            marks.pop();
            Err(stop)
        }
    }
}

impl Replicated {
    /// A machine all of whose entries were handed in.
    pub(crate) fn new(alloc: Global, machine: Machine) -> Replicated
        ensures { result ≡ record { machine = machine; signs = record { opening = length machine.log; authors = [] } } }
    {
        is_short(&machine);
        let opening = machine.entries();
        Replicated {
            machine,
            marks: Marks::new(alloc, opening),
            replicas: Vec::new(alloc),
            planners: Planners::Nobody,
        }
    }

    /// The machine.
    pub fn get(&self) -> &Machine
        ensures { result.now ≡ self.now.machine }
    {
        &self.machine
    }

    /// There is a mark for each entry that was not handed in: a look shows that.
    pub(crate) fn is_tied(&self)
        ensures { IsTied self.now }
    {
        let _marks = &self.marks;
    }

    /// The machine and its marks by themselves.
    pub(crate) fn into_parts(self) -> (Machine, Marks)
        ensures machine { result.0 ≡ self.machine }
        ensures signs { result.1 ≡ self.signs }
    {
        let Replicated {
            machine,
            marks,
            replicas: _,
            planners: _,
        } = self;
        (machine, marks)
    }

    /// Notes that this planner looks at the plan, and tells whether no other has.
    pub(crate) fn is_only_planner(&mut self, by: Author) -> bool
        ensures { self.new ≡ self.old }
    {
        self.planners = self.planners.with(by);
        self.planners.is_one()
    }

    /// Lets a chooser draw the words of a choice. What it proposes is dropped.
    #[tactic(auto, using(crate::proofs::AtOnce::proposed_keeps, crate::proofs::AtOnce::written_kept))]
    pub(crate) fn draw<C: Chooser>(&mut self, chooser: &mut C)
        requires { self.old.machine.spoiled ≡ false }
        ensures keeps { HasSameLog self.old self.new }
        ensures drawn { C.drawn chooser.old chooser.new }
    {
        self.machine.propose(chooser).ok();
    }

    /// Lends the replica that came back last, or a new one, with the entries that it has not made.
    #[tactic(auto, using(crate::proofs::Replicas::one_less))]
    pub(crate) fn lend(&mut self, alloc: Global) -> Result<Draft, AllocError>
        requires unspoiled { self.old.machine.spoiled ≡ false }
        ensures same { self.new ≡ self.old }
        ensures draft { IfOk result (IsDraft self.old.machine) }
    {
        let replica = replica_of(alloc, &self.machine, self.replicas.pop())?;
        let entries = self.machine.entries_from(alloc, replica.entries())?;
        Ok(Draft { replica, entries })
    }

    /// Takes a replica back, if there is room for it.
    #[tactic(auto, using(crate::proofs::Replicas::one_more))]
    pub(crate) fn keep(&mut self, replica: Option<Machine>)
        requires { IfSome replica (IsReplica self.old.machine) }
        ensures { self.new ≡ self.old }
    {
        if let Some(replica) = replica {
            self.replicas.push(replica).ok();
        }
    }

    /// [`Machine::input`], as this author.
    #[tactic(auto, using(crate::proofs::Signing::signed_answers, crate::proofs::Signing::unsigned, crate::proofs::Signing::written_answers, crate::proofs::Signing::written_same, crate::proofs::Signing::some_signed))]
    pub(crate) fn input(&mut self, by: Author, line: Option<&[u8]>) -> Result<Reply, Stop>
        requires unspoiled { self.old.machine.spoiled ≡ false }
        requires author { IsAuthor by }
        requires line { IfSome (option_copied line) IsMessageLine }
        ensures { SignedAnswers by self.old (event.Input (option_copied line.entry)) result self.new }
    {
        sign(&self.machine, &mut self.marks, by)?;
        let answer = self.machine.input(line);
        unless_refused(&mut self.marks, answer)
    }

    /// [`Machine::execute`], as this author.
    #[tactic(auto, using(crate::proofs::Signing::signed_answers, crate::proofs::Signing::unsigned, crate::proofs::Signing::written_answers, crate::proofs::Signing::written_same, crate::proofs::Signing::some_signed))]
    pub(crate) fn execute(&mut self, by: Author, choice: Choice) -> Result<Reply, Stop>
        requires unspoiled { self.old.machine.spoiled ≡ false }
        requires author { IsAuthor by }
        ensures { SignedAnswers by self.old (event_of choice) result self.new }
    {
        sign(&self.machine, &mut self.marks, by)?;
        let answer = self.machine.execute(choice);
        unless_refused(&mut self.marks, answer)
    }

    /// [`Machine::rest`], as this author.
    #[tactic(auto, using(crate::proofs::Signing::signed_answers, crate::proofs::Signing::unsigned, crate::proofs::Signing::written_answers, crate::proofs::Signing::written_same, crate::proofs::Signing::some_signed))]
    pub(crate) fn rest(&mut self, by: Author) -> Result<Reply, Stop>
        requires unspoiled { self.old.machine.spoiled ≡ false }
        requires author { IsAuthor by }
        ensures { SignedAnswers by self.old event.Rest result self.new }
    {
        sign(&self.machine, &mut self.marks, by)?;
        let answer = self.machine.rest();
        unless_refused(&mut self.marks, answer)
    }

    /// [`Machine::fix`], as this author.
    #[tactic(auto, using(crate::proofs::Signing::signed_answers, crate::proofs::Signing::unsigned, crate::proofs::Signing::written_answers, crate::proofs::Signing::written_same, crate::proofs::Signing::some_signed))]
    pub(crate) fn fix(&mut self, by: Author, proposal: &Proposal) -> Result<Reply, Stop>
        requires unspoiled { self.old.machine.spoiled ≡ false }
        requires author { IsAuthor by }
        requires repair { IsMoveOf self.old.machine.model proposal.now.mv }
        ensures { SignedAnswers by self.old (event.Fix proposal.now.conflict proposal.now.mv) result self.new }
    {
        sign(&self.machine, &mut self.marks, by)?;
        let answer = self.machine.fix(&proposal.conflict, &proposal.mv);
        unless_refused(&mut self.marks, answer)
    }

    /// [`Machine::repair_once`], as this author.
    #[tactic(auto, using(crate::proofs::Signing::signed_repair, crate::proofs::Signing::not_marked, crate::proofs::Signing::written_repair, crate::proofs::Signing::written_same, crate::proofs::Signing::some_signed))]
    pub(crate) fn repair_once<C: Chooser>(
        &mut self,
        by: Author,
        chooser: &mut C,
    ) -> Result<Repaired, Stop>
        requires unspoiled { self.old.machine.spoiled ≡ false }
        requires author { IsAuthor by }
        ensures { RepairsSigned C.picks C.drawn by self.old chooser.old result self.new chooser.new }
    {
        sign(&self.machine, &mut self.marks, by)?;
        let answer = self.machine.repair_once(chooser);
        unless_refused(&mut self.marks, answer)
    }
}

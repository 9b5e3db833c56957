//! The threads of the workers, and the feeder beside them.
ghost use Rattle.std.specs.Prelude.{◌≡◌, ◌+◌, ◌≤◌, true, length, None, IsErrOf, IfSome};
ghost use Rattle.std.specs.Thread.{IsSync};
ghost use Rattle.pl_turn.specs.Passes.{leads};
ghost use Rattle.pl_io.specs.Faults.{Rose};
ghost use Rattle.std.specs.List.{All};
ghost use Rattle.pl_pair.specs.Served.{IsHired, IsWorker};
ghost use Rattle.pl_pair.specs.Workers.{AreHands, IsHand, duty_of, duties_of};
ghost use Rattle.pl_input.specs.Places.{place_of};
ghost use Rattle.pl_pair.specs.Joins.{IsFresh, IsFirst, HasBegun, Hires, Feeds, JoinsIf};

use crate::cut::Cut;
use crate::duty::Duty;
use crate::endings::Met;
use crate::feeder::feed_or_stop;
use crate::hands::{Hand, Hands, Hired};
use crate::worker::{Worker, serve_unless};
use pl_io::{LineReader, Sink, Source};
use pl_locked::{Pass, SharedPlan};
use pl_model::Model;
use pl_turn::Gate;
use std::alloc::Global;
use std::sync::Wait;
use std::sync::atomic::{AtomicBool, Ordering};
use std::thread::{self, Scope, Threads};

/// What remains of a run: the first pass, which has taken all others in, and what the feeder and the workers met.
#[derive(Drop)]
pub struct Remains {
    pub pass: Pass,
    pub fed: Result<(), Cut>,
    pub met: Met,
}

/// Feeds the plan up to the end, and joins the workers.
fn feed_and_join<R: Threads + Wait, S: Source, O: Sink>(
    rt: &R,
    alloc: Global,
    plan: &SharedPlan,
    model: &Model,
    mut pass: Pass,
    mut hands: Hands<'_>,
    lines: &mut LineReader,
    src: &mut S,
    out: &mut O,
) -> Remains
    requires fresh { IsFresh plan.now pass }
    requires first { leads pass ≡ true }
    requires hands { AreHands plan.now hands }
    requires limit { lines.old.limit ≤ 4096 }
    ensures feeds { Feeds plan.now model.now pass (duties_of hands.entry) (place_of lines.old (S.left src.old)) (O.held out.old) result
        (place_of lines.new (S.left src.new)) (O.held out.new) }
    ensures read { IsErrOf result.fed Cut.Read → lines.old.failed ≡ None → Rose (S.faults src.old) (S.faults src.new) }
    ensures write { IsErrOf result.fed Cut.Write → Rose (O.faults out.old) (O.faults out.new) }
    ensures later { O.faults out.old ≤ O.faults out.new }
{
    let fed = feed_or_stop(
        rt, alloc, plan, model, &mut pass, &mut hands, lines, src, out,
    );
    let met = hands.join_all(rt, plan, &mut pass);
    Remains { pass, fed, met }
}

/// The references that a scope handed back end here, unchanged.
fn let_go<S: Source, O: Sink>(_lines: &mut LineReader, _src: &mut S, _out: &mut O)
    ensures lines { _lines.new ≡ _lines.old }
    ensures src { _src.new ≡ _src.old }
    ensures out { _out.new ≡ _out.old }
{}

/// Starts a worker. A start that is refused hands its closure back, which gives the worker up at once.
fn hire<'s, E, R: Wait + Sync, G: Gate + Sync>(
    scope: &Scope<'s, E>,
    rt: &'s R,
    alloc: Global,
    plan: &'s SharedPlan,
    gate: &'s G,
    pass: Pass,
    duty: Duty,
    refused: &'s AtomicBool,
) -> Hand<'s>
    requires hired { IsHired plan.now duty pass }
    ensures hand { IsHand plan.now result }
    ensures duty { duty_of result ≡ duty }
{
    let started = scope.spawn_with(
        Hired { plan, duty },
        move || -> Worker
            requires { IsHired plan.now duty pass }
            ensures { IsWorker plan.entry.now duty result }
        { serve_unless(rt, alloc, plan, gate, pass, duty, refused) },
    );
    match started {
        Ok(child) => Hand::Away(child),
        Err(error) => {
            refused.store(true, Ordering::SeqCst);
            Hand::Here((error.value)())
        }
    }
}

/// Starts a worker for each duty, with a pass of its own. `None` where memory is wanting, and then no thread was started.
#[tactic(auto, using(crate::proofs::Handing::all_more, crate::proofs::Handing::duties_more, crate::proofs::Handing::splits_none, crate::proofs::Handing::splits_more, crate::proofs::Handing::splits_lead, crate::proofs::Handing::hired_at, crate::proofs::Handing::splits_few))]
fn hire_all<'s, E, R: Wait + Sync, G: Gate + Sync>(
    scope: &Scope<'s, E>,
    rt: &'s R,
    alloc: Global,
    plan: &'s SharedPlan,
    gate: &'s G,
    pass: &mut Pass,
    duties: &[Duty],
    refused: &'s [AtomicBool],
) -> Option<Hands<'s>>
    requires first { IsFirst plan.now pass.old }
    requires begun { All (HasBegun pass.old) duties.now }
    requires few { length duties.now ≤ 9 }
    requires flags { length duties.now ≤ length refused.now }
    ensures hired { IfSome result (Hires plan.now pass.old duties.now pass.new) }
{
    let mut all = Vec::with_capacity(alloc, duties.len()).ok()?;
    for place in 0..duties.len() {
        let own = plan.split(alloc, pass).unwrap();
        let hand = hire(
            scope,
            rt,
            alloc,
            plan,
            gate,
            own,
            duties[place],
            &refused[place],
        );
        all.push_reserved(hand);
    }
    Some(Hands { all })
}

/// Starts the workers, feeds them, and joins them. `None` where memory is wanting before a thread was started.
pub(crate) fn run_workers<R: Threads + Wait + Sync, S: Source, O: Sink, G: Gate + Sync>(
    rt: &R,
    alloc: Global,
    plan: &SharedPlan,
    gate: &G,
    model: &Model,
    pass: Pass,
    duties: &[Duty],
    refused: &[AtomicBool],
    lines: &mut LineReader,
    src: &mut S,
    out: &mut O,
) -> Option<Remains>
    requires first { IsFirst plan.now pass }
    requires begun { All (HasBegun pass) duties.now }
    requires few { length duties.now ≤ 9 }
    requires flags { length duties.now ≤ length refused.now }
    requires limit { lines.old.limit ≤ 4096 }
    ensures joins { JoinsIf plan.now model.now pass duties.now (place_of lines.old (S.left src.old)) (O.held out.old) result
        (place_of lines.new (S.left src.new)) (O.held out.new) }
    ensures read { IfSome result (λ remains. IsErrOf remains.fed Cut.Read → lines.old.failed ≡ None → Rose (S.faults src.old) (S.faults src.new)) }
    ensures write { IfSome result (λ remains. IsErrOf remains.fed Cut.Write → Rose (O.faults out.old) (O.faults out.new)) }
    ensures later { O.faults out.old ≤ O.faults out.new }
{
    let (lines, src, out, remains) = thread::scope(
        thread::scope_env(),
        rt,
        move |scope|
            requires { IsSync R.row × IsSync G.row × IsFirst plan.now pass × All (HasBegun pass) duties.now × (length duties.now ≤ 9) × (length duties.now ≤ length refused.now) × (lines.now.limit ≤ 4096) }
            ensures joins { JoinsIf plan.entry.now model.entry.now pass duties.entry.now (place_of lines.entry.now (S.left src.entry.now))
                (O.held out.entry.now) result.3 (place_of result.0.now (S.left result.1.now)) (O.held result.2.now) }
            ensures back { (result.0.ghost_name ≡ lines.entry.ghost_name) × (result.1.ghost_name ≡ src.entry.ghost_name) × (result.2.ghost_name ≡ out.entry.ghost_name) }
            ensures read { IfSome result.3 (λ remains. IsErrOf remains.fed Cut.Read → lines.entry.now.failed ≡ None → Rose (S.faults src.entry.now) (S.faults result.1.now)) }
            ensures write { IfSome result.3 (λ remains. IsErrOf remains.fed Cut.Write → Rose (O.faults out.entry.now) (O.faults result.2.now)) }
            ensures later { O.faults out.entry.now ≤ O.faults result.2.now }
        {
            let mut first = pass;
            match hire_all(scope, rt, alloc, plan, gate, &mut first, duties, refused) {
                Some(hands) => {
                    let remains = feed_and_join(
                        rt, alloc, plan, model, first, hands, lines, src, out,
                    );
                    (lines, src, out, Some(remains))
                }
                None => (lines, src, out, None),
            }
        },
    );
    let_go(lines, src, out);
    remains
}

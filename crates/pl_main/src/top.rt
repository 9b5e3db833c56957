ghost use Rattle.std.specs.Prelude.{◌≡◌, ◌≤◌, ◌⊎◌, ℕ, None, Some};
ghost use Rattle.pl_io.specs.Faults.{Rose};
ghost use Rattle.pl_io.specs.Writes.{AppendsFront};
ghost use Rattle.pl_main.specs.Words.{command_of};
ghost use Rattle.pl_main.specs.Limits.{Completes, CompletesRun};
ghost use Rattle.pl_main.specs.Runs.{IsTeam};
ghost use Rattle.pl_main.specs.RunKinds.{pair_run, crew_run, run_of};
ghost use Rattle.pl_main.specs.Statuses.{IsTask, IsStatusOf, IsPairStatus, status_of, status_of_journal, usage_line, SaysKnown, SaysEndedKnown};
ghost use Rattle.pl_journal.specs.Written.{Adds};

use crate::check::check;
use crate::command::{Command, Task, Team};
use crate::demo::demo;
use crate::form::Form;
use crate::journals::read_back;
use crate::judgement::Judgement;
use crate::outcome::Outcome;
use crate::paired::paired;
use crate::whole::solo;
use crate::words::read_words;
use pl_input::Halt;
use pl_io::{Sink, Source, put};
use pl_turn::Gate;
use std::alloc::Global;
use std::sync::Wait;
use std::thread::Threads;

/// The status that tells how a run ended.
pub(crate) fn status_of(ended: Result<Outcome, Halt>) -> u8
    ensures { result ≡ status_of ended }
{
    match ended {
        Ok(Outcome::Done) => 0,
        Ok(Outcome::Refused) => 3,
        Err(Halt::Read) => 4,
        Err(Halt::Write) => 5,
        Err(Halt::Limit) => 6,
        Err(Halt::Full) => 7,
        Err(Halt::Memory) => 9,
    }
}

fn status_of_journal(ended: Result<Judgement, Halt>) -> u8
    ensures { result ≡ status_of_journal ended }
{
    match ended {
        Ok(Judgement::Right) => 0,
        Ok(Judgement::Refused) => 3,
        Ok(Judgement::Wrong) => 8,
        Err(halt) => status_of(Err(halt)),
    }
}

#[tactic(auto, using(crate::proofs::Topping::says_of, crate::proofs::Topping::says_checked, crate::proofs::Topping::says_shown, crate::proofs::Topping::says_replayed, crate::proofs::Topping::says_reported, crate::proofs::Topping::says_moved, crate::proofs::Topping::says_foreseen, crate::proofs::Topping::says_bettered, crate::proofs::Jobs::solo_status, crate::proofs::Jobs::check_status, crate::proofs::Jobs::replay_status, crate::proofs::Jobs::report_status, crate::proofs::Jobs::flex_status, crate::proofs::Jobs::forecast_status, crate::proofs::Jobs::improve_status, crate::proofs::Jobs::demo_status))]
fn task_status<I: Source, O: Sink>(alloc: Global, task: &Task, input: &mut I, out: &mut O) -> u8
    requires { IsTask task.now }
    ensures status { IsStatusOf task.now result }
    ensures read { result ≡ 4 → Rose (I.faults input.old) (I.faults input.new) }
    ensures write { result ≡ 5 → Rose (O.faults out.old) (O.faults out.new) }
    ensures says { SaysKnown task.now (I.left input.old) (I.left input.new) (O.held out.old)
        (O.held out.new) result }
    ensures unread { (goals : ℕ) → task.now ≡ Task.Demo goals → input.new ≡ input.old }
{
    match task {
        Task::Solo { turns } => status_of(solo(alloc, *turns, input, out)),
        Task::Check => status_of(check(alloc, input, out)),
        Task::Replay => status_of_journal(read_back(alloc, Form::Replay, input, out)),
        Task::Report => status_of_journal(read_back(alloc, Form::Report, input, out)),
        Task::Flex { id } => {
            status_of_journal(read_back(alloc, Form::Flex { id: *id }, input, out))
        }
        Task::Forecast => status_of_journal(read_back(alloc, Form::Forecast, input, out)),
        Task::Improve { steps } => {
            status_of_journal(read_back(alloc, Form::Improve { steps: *steps }, input, out))
        }
        Task::Demo { goals } => status_of(demo(alloc, *goals, out)),
    }
}

/// Does a task of one thread. It waits for nobody.
pub fn run_solo<I: Source, O: Sink>(alloc: Global, task: &Task, input: &mut I, out: &mut O) -> u8
    requires { IsTask task.now }
    ensures status { IsStatusOf task.now result }
    ensures read { result ≡ 4 → Rose (I.faults input.old) (I.faults input.new) }
    ensures write { result ≡ 5 → Rose (O.faults out.old) (O.faults out.new) }
    ensures says { SaysKnown task.now (I.left input.old) (I.left input.new) (O.held out.old)
        (O.held out.new) result }
    ensures unread { (goals : ℕ) → task.now ≡ Task.Demo goals → input.new ≡ input.old }
    ensures complete { (Rose (I.faults input.old) (I.faults input.new) → ⊥)
        → (Rose (O.faults out.old) (O.faults out.new) → ⊥)
        → Completes task.now (I.left input.old) result }
{
    task_status(alloc, task, input, out)
}

/// The usage line, and its status.
fn usage<O: Sink>(out: &mut O) -> u8
    ensures status { (result ≡ 2) ⊎ (result ≡ 5) }
    ensures write { result ≡ 5 → Rose (O.faults out.old) (O.faults out.new) }
    ensures text { result ≡ 2 → Adds (O.held out.old) (O.held out.new) usage_line }
    ensures front { result ≡ 5 → AppendsFront (O.held out.old) (O.held out.new) usage_line }
{
    match put(
        out,
        b"usage: run solo N | run pair N SEED | check | replay | report | demo N | run crew N P SEED | flex ID | forecast | improve N\n",
    ) {
        Ok(()) => 2,
        Err(_) => 5,
    }
}

/// Does the job of a team in threads of its own, and answers its status.
#[tactic(auto, using(crate::proofs::Topping::says_of, crate::proofs::Jobs::pair_status))]
fn team_status<R: Threads + Wait + Sync, I: Source, O: Sink, G: Gate + Sync>(
    rt: &R,
    alloc: Global,
    turns: u32,
    team: Team,
    input: &mut I,
    out: &mut O,
    gate: &G,
) -> u8
    requires turns { (1 ≤ turns) × (turns ≤ 1000) }
    requires team { IsTeam team }
    ensures status { IsPairStatus result }
    ensures read { result ≡ 4 → Rose (I.faults input.old) (I.faults input.new) }
    ensures write { result ≡ 5 → Rose (O.faults out.old) (O.faults out.new) }
    ensures says { SaysEndedKnown (run_of team turns) (I.left input.old) (I.left input.new) (O.held out.old) (O.held out.new) result }
    ensures complete { (Rose (I.faults input.old) (I.faults input.new) → ⊥)
        → (Rose (O.faults out.old) (O.faults out.new) → ⊥)
        → CompletesRun (run_of team turns) (I.left input.old) result }
{
    status_of(paired(rt, alloc, turns, team, input, out, gate))
}

/// Does what the words behind the program's name ask for, and answers the program's status. `run pair N SEED` and
/// `run crew N P SEED` alone start threads, and wait for them; the gate is called by these, and by nobody else.
#[tactic(auto, using(crate::proofs::Wording::task_fits, crate::proofs::Wording::pair_fits, crate::proofs::Wording::crew_fits, crate::proofs::Jobs::pair_not_usage, crate::proofs::Jobs::job_not_usage))]
pub fn run<R: Threads + Wait + Sync, I: Source, O: Sink, G: Gate + Sync>(
    rt: &R,
    alloc: Global,
    words: &[String],
    input: &mut I,
    out: &mut O,
    gate: &G,
) -> u8
    ensures usage { result ≡ 2 → command_of words.now ≡ None }
    ensures words { command_of words.now ≡ None → (result ≡ 2) ⊎ (result ≡ 5) }
    ensures unread { command_of words.now ≡ None → input.new ≡ input.old }
    ensures demo_unread { (goals : ℕ) → command_of words.now ≡ Some (Command.Alone (Task.Demo goals)) → input.new ≡ input.old }
    ensures usage_text { result ≡ 2 → Adds (O.held out.old) (O.held out.new) usage_line }
    ensures usage_front { command_of words.now ≡ None → result ≡ 5 → AppendsFront (O.held out.old) (O.held out.new) usage_line }
    ensures status { (task : Task) → command_of words.now ≡ Some (Command.Alone task) → IsStatusOf task result }
    ensures pair_status { (turns seed : ℕ) → command_of words.now ≡ Some (Command.Pair turns seed) → IsPairStatus result }
    ensures crew_status { (turns planners seed : ℕ) → command_of words.now ≡ Some (Command.Crew turns planners seed) → IsPairStatus result }
    ensures read { result ≡ 4 → Rose (I.faults input.old) (I.faults input.new) }
    ensures write { result ≡ 5 → Rose (O.faults out.old) (O.faults out.new) }
    ensures says { (task : Task) → command_of words.now ≡ Some (Command.Alone task)
        → SaysKnown task (I.left input.old) (I.left input.new) (O.held out.old) (O.held out.new) result }
    ensures complete { (task : Task) → command_of words.now ≡ Some (Command.Alone task)
        → (Rose (I.faults input.old) (I.faults input.new) → ⊥)
        → (Rose (O.faults out.old) (O.faults out.new) → ⊥)
        → Completes task (I.left input.old) result }
    ensures pair { (turns seed : ℕ) → command_of words.now ≡ Some (Command.Pair turns seed)
        → SaysEndedKnown (pair_run turns seed) (I.left input.old) (I.left input.new) (O.held out.old) (O.held out.new) result }
    ensures pair_complete { (turns seed : ℕ) → command_of words.now ≡ Some (Command.Pair turns seed)
        → (Rose (I.faults input.old) (I.faults input.new) → ⊥)
        → (Rose (O.faults out.old) (O.faults out.new) → ⊥)
        → CompletesRun (pair_run turns seed) (I.left input.old) result }
    ensures crew { (turns planners seed : ℕ) → command_of words.now ≡ Some (Command.Crew turns planners seed)
        → SaysEndedKnown (crew_run turns planners seed) (I.left input.old) (I.left input.new) (O.held out.old) (O.held out.new) result }
    ensures crew_complete { (turns planners seed : ℕ) → command_of words.now ≡ Some (Command.Crew turns planners seed)
        → (Rose (I.faults input.old) (I.faults input.new) → ⊥)
        → (Rose (O.faults out.old) (O.faults out.new) → ⊥)
        → CompletesRun (crew_run turns planners seed) (I.left input.old) result }
{
    match read_words(words) {
        None => usage(out),
        Some(Command::Pair { turns, seed }) => {
            team_status(rt, alloc, turns, Team::Pair { seed }, input, out, gate)
        }
        Some(
            Command::Crew {
                turns,
                planners,
                seed,
            },
        ) => team_status(
            rt,
            alloc,
            turns,
            Team::Crew { planners, seed },
            input,
            out,
            gate,
        ),
        Some(Command::Alone(task)) => run_solo(alloc, &task, input, out),
    }
}

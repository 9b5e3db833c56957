//! The top call of the program that looks ahead: its words, the model's text, the messages, and the journal.
ghost use Rattle.std.specs.Prelude.{◌≡◌, ◌≤◌, ◌⊎◌, None, Some};
ghost use Rattle.pl_io.specs.Faults.{Rose};
ghost use Rattle.pl_io.specs.Writes.{AppendsFront};
ghost use Rattle.pl_journal.specs.Written.{Adds};
ghost use Rattle.pl_main.specs.Ahead.{ahead_by, ahead_of, ahead_usage};
ghost use Rattle.pl_main.specs.Limits.{CompletesRun};
ghost use Rattle.pl_main.specs.RunKinds.{look_run};
ghost use Rattle.pl_main.specs.Statuses.{IsPairStatus, SaysEndedKnown};

use crate::command::Ahead;
use crate::number::read_number;
use crate::top::status_of;
use crate::whole::plan;
use pl_io::{Sink, Source, put};
use pl_search::Insertion;
use std::alloc::Global;

fn ahead_from(turns: Option<u64>, worlds: Option<u64>) -> Option<Ahead>
    ensures { result ≡ ahead_by turns worlds }
{
    match (turns, worlds) {
        (Some(turns), Some(worlds)) if 1 <= turns && turns <= 1000 && worlds <= 1_000_000 => {
            Some(Ahead {
                turns: turns as u32,
                worlds: worlds as u32,
            })
        }
        _ => None,
    }
}

/// What the words behind the program's name ask for: `run N WORLDS`, N from 1 to 1,000, WORLDS up to 1,000,000.
#[tactic(auto, unfolding(crate::specs::Ahead::ahead_of))]
pub fn read_ahead(words: &[String]) -> Option<Ahead>
    ensures { result ≡ ahead_of words.now }
{
    match words {
        [run, turns, worlds] => {
            if run.as_bytes() == b"run".as_slice() {
                ahead_from(
                    read_number(turns.as_bytes()),
                    read_number(worlds.as_bytes()),
                )
            } else {
                None
            }
        }
        _ => None,
    }
}

// The usage line, and its status.
fn usage<O: Sink>(out: &mut O) -> u8
    ensures status { (result ≡ 2) ⊎ (result ≡ 5) }
    ensures write { result ≡ 5 → Rose (O.faults out.old) (O.faults out.new) }
    ensures text { result ≡ 2 → Adds (O.held out.old) (O.held out.new) ahead_usage }
    ensures front { result ≡ 5 → AppendsFront (O.held out.old) (O.held out.new) ahead_usage }
{
    match put(out, b"usage: run N WORLDS\n") {
        Ok(()) => 2,
        Err(_) => 5,
    }
}

/// Plans a mission and looks ahead, and answers the status. It waits for nobody.
#[tactic(auto, using(crate::proofs::Topping::says_of, crate::proofs::Jobs::pair_status))]
pub fn look_ahead<I: Source, O: Sink>(
    alloc: Global,
    ahead: &Ahead,
    input: &mut I,
    out: &mut O,
) -> u8
    requires { (1 ≤ ahead.now.turns) × (ahead.now.turns ≤ 1000) }
    ensures status { IsPairStatus result }
    ensures read { result ≡ 4 → Rose (I.faults input.old) (I.faults input.new) }
    ensures write { result ≡ 5 → Rose (O.faults out.old) (O.faults out.new) }
    ensures says { SaysEndedKnown (look_run ahead.now.turns) (I.left input.old) (I.left input.new) (O.held out.old) (O.held out.new) result }
    ensures complete { (Rose (I.faults input.old) (I.faults input.new) → ⊥)
        → (Rose (O.faults out.old) (O.faults out.new) → ⊥)
        → CompletesRun (look_run ahead.now.turns) (I.left input.old) result }
{
    let mut planner = Insertion::new(alloc, ahead.turns, ahead.worlds);
    status_of(plan(alloc, ahead.turns, &mut planner, input, out))
}

/// Does what the words behind the program's name ask for, and answers the program's status.
#[tactic(auto, using(crate::proofs::AboutAhead::ahead_fits, crate::proofs::Jobs::pair_not_usage))]
pub fn run_ahead<I: Source, O: Sink>(
    alloc: Global,
    words: &[String],
    input: &mut I,
    out: &mut O,
) -> u8
    ensures usage { result ≡ 2 → ahead_of words.now ≡ None }
    ensures words { ahead_of words.now ≡ None → (result ≡ 2) ⊎ (result ≡ 5) }
    ensures unread { ahead_of words.now ≡ None → input.new ≡ input.old }
    ensures usage_text { result ≡ 2 → Adds (O.held out.old) (O.held out.new) ahead_usage }
    ensures usage_front { ahead_of words.now ≡ None → result ≡ 5 → AppendsFront (O.held out.old) (O.held out.new) ahead_usage }
    ensures status { (ahead : Ahead) → ahead_of words.now ≡ Some ahead → IsPairStatus result }
    ensures read { result ≡ 4 → Rose (I.faults input.old) (I.faults input.new) }
    ensures write { result ≡ 5 → Rose (O.faults out.old) (O.faults out.new) }
    ensures says { (ahead : Ahead) → ahead_of words.now ≡ Some ahead
        → SaysEndedKnown (look_run ahead.turns) (I.left input.old) (I.left input.new) (O.held out.old) (O.held out.new) result }
    ensures complete { (ahead : Ahead) → ahead_of words.now ≡ Some ahead
        → (Rose (I.faults input.old) (I.faults input.new) → ⊥)
        → (Rose (O.faults out.old) (O.faults out.new) → ⊥)
        → CompletesRun (look_run ahead.turns) (I.left input.old) result }
{
    match read_ahead(words) {
        None => usage(out),
        Some(ahead) => look_ahead(alloc, &ahead, input, out),
    }
}

ghost use Rattle.std.specs.Prelude.{◌≡◌};
ghost use Rattle.pl_main.specs.Words.{turns_by, pair_by, crew_by, goals_by, flex_by, improve_by, single_word, command_of};

use crate::command::{Command, Task};
use crate::number::read_number;

fn solo(turns: Option<u64>) -> Option<Command>
    ensures { result ≡ turns_by turns }
{
    match turns {
        Some(turns) if 1 <= turns && turns <= 1000 => Some(Command::Alone(Task::Solo {
            turns: turns as u32,
        })),
        _ => None,
    }
}

fn pair(turns: Option<u64>, seed: Option<u64>) -> Option<Command>
    ensures { result ≡ pair_by turns seed }
{
    match (turns, seed) {
        (Some(turns), Some(seed)) if 1 <= turns && turns <= 1000 => Some(Command::Pair {
            turns: turns as u32,
            seed,
        }),
        _ => None,
    }
}

fn crew(turns: Option<u64>, planners: Option<u64>, seed: Option<u64>) -> Option<Command>
    ensures { result ≡ crew_by turns planners seed }
{
    match (turns, planners, seed) {
        (Some(turns), Some(planners), Some(seed))
            if 1 <= turns && turns <= 1000 && (2 <= planners && planners <= 8) => {
            Some(Command::Crew {
                turns: turns as u32,
                planners: planners as u8,
                seed,
            })
        }
        _ => None,
    }
}

/// A task that is one word.
fn single(word: &[u8]) -> Option<Command>
    ensures { result ≡ single_word word.now }
{
    if word == b"check".as_slice() {
        Some(Command::Alone(Task::Check))
    } else if word == b"replay".as_slice() {
        Some(Command::Alone(Task::Replay))
    } else if word == b"report".as_slice() {
        Some(Command::Alone(Task::Report))
    } else if word == b"forecast".as_slice() {
        Some(Command::Alone(Task::Forecast))
    } else {
        None
    }
}

fn flex(id: Option<u64>) -> Option<Command>
    ensures { result ≡ flex_by id }
{
    let id = id?;
    Some(Command::Alone(Task::Flex { id }))
}

fn improve(steps: Option<u64>) -> Option<Command>
    ensures { result ≡ improve_by steps }
{
    match steps {
        Some(steps) if 1 <= steps && steps <= 1000 => Some(Command::Alone(Task::Improve {
            steps: steps as u32,
        })),
        _ => None,
    }
}

fn demo(goals: Option<u64>) -> Option<Command>
    ensures { result ≡ goals_by goals }
{
    match goals {
        Some(goals) if 1 <= goals && goals <= 4000 => Some(Command::Alone(Task::Demo {
            goals: goals as u32,
        })),
        _ => None,
    }
}

/// What the words behind the program's name ask for: `run solo N`, N from 1 to 1,000, `run pair N SEED`, SEED of at most 18
/// digits, `run crew N P SEED`, P from 2 to 8, `check`, `replay`, `report`, `demo N`, N from 1 to 4,000, `flex ID`, ID of at most 18
/// digits, `forecast`, or `improve N`, N from 1 to 1,000.
#[tactic(auto, unfolding(crate::specs::Words::command_of))]
pub fn read_words(words: &[String]) -> Option<Command>
    ensures { result ≡ command_of words.now }
{
    match words {
        [word] => single(word.as_bytes()),
        [word, number] => {
            if word.as_bytes() == b"demo".as_slice() {
                demo(read_number(number.as_bytes()))
            } else if word.as_bytes() == b"flex".as_slice() {
                flex(read_number(number.as_bytes()))
            } else if word.as_bytes() == b"improve".as_slice() {
                improve(read_number(number.as_bytes()))
            } else {
                None
            }
        }
        [run, solo_word, turns] => {
            if run.as_bytes() == b"run".as_slice() && solo_word.as_bytes() == b"solo".as_slice() {
                solo(read_number(turns.as_bytes()))
            } else {
                None
            }
        }
        [run, pair_word, turns, seed] => {
            if run.as_bytes() == b"run".as_slice() && pair_word.as_bytes() == b"pair".as_slice() {
                pair(read_number(turns.as_bytes()), read_number(seed.as_bytes()))
            } else {
                None
            }
        }
        [run, crew_word, turns, planners, seed] => {
            if run.as_bytes() == b"run".as_slice() && crew_word.as_bytes() == b"crew".as_slice() {
                crew(
                    read_number(turns.as_bytes()),
                    read_number(planners.as_bytes()),
                    read_number(seed.as_bytes()),
                )
            } else {
                None
            }
        }
        _ => None,
    }
}

//! What one planner made.
ghost use Rattle.std.specs.Prelude.{◌≡◌, ◌<◌, ◌^◌, length, count_by};
ghost use Rattle.pl_many.specs.Tallies.{is_made_repair, is_mark_by, is_repair_by, tally_of};

use pl_entry::{Entry, Event, Reply};
use pl_marks::{Author, Mark};

/// How many entries a planner made, and how many of them are repairs that were made.
#[derive(Clone, Copy, Debug, PartialEq, Eq)]
pub struct Tally {
    pub entries: u32,
    pub repairs: u32,
}

fn is_made_repair(entry: &Entry) -> bool
    ensures { result ≡ is_made_repair entry.now }
{
    match (&entry.event, &entry.reply) {
        (Event::Fix(_, _), Reply::Done) => true,
        _ => false,
    }
}

fn is_mark_by(number: u8, mark: &Mark) -> bool
    ensures { result ≡ is_mark_by number mark.now }
{
    match mark.author {
        Author::Planner(by) => by == number,
        Author::Feeder | Author::Executive => false,
    }
}

/// Whether a mark is of a repair that this planner made.
fn is_repair_by(number: u8, mark: &Mark, log: &[Entry]) -> bool
    ensures { result ≡ is_repair_by number log.now mark.now }
{
    match log.get(mark.entry as usize) {
        Some(entry) => is_mark_by(number, mark) && is_made_repair(entry),
        None => false,
    }
}

fn count_entries(number: u8, marks: &[Mark]) -> usize
    ensures { result ≡ count_by (is_mark_by number) marks.now }
{
    marks.iter().filter(|mark| is_mark_by(number, mark)).count()
}

fn count_repairs(number: u8, marks: &[Mark], log: &[Entry]) -> usize
    ensures { result ≡ count_by (is_repair_by number log.now) marks.now }
{
    marks
        .iter()
        .filter(|mark| is_repair_by(number, mark, log))
        .count()
}

/// What the planner of this number made of a log with these marks.
#[tactic(auto, using(crate::proofs::Tallying::few_entries, crate::proofs::Tallying::few_repairs))]
pub fn tally_for(number: u8, marks: &[Mark], log: &[Entry]) -> Tally
    requires { length marks.now < 2 ^ 32 }
    ensures { result ≡ tally_of number marks.now log.now }
{
    Tally {
        entries: count_entries(number, marks) as u32,
        repairs: count_repairs(number, marks, log) as u32,
    }
}

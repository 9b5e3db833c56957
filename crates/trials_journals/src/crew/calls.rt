//! The calls of a crew, on one thread.
ghost use Rattle.pl_many.specs.Members.{IsMember};

use crate::asserting::holds;
use crate::crew::members::{acts, hired, is_told, join_three, last_of, settles, sight_of, tell};
use crate::worked::{MODEL, model};
use pl_journal::render;
use pl_machine::Machine;
use pl_many::{Acted, Author, Crew, Hired, Mark, Member};
use std::alloc::Global;
use std::process::Abort;
use std::sync::Wait;

/// Both planners look, then both settle.
fn both_repair<R: Abort + Wait>(
    rt: &R,
    alloc: Global,
    crew: &Crew,
    first: &mut Member,
    second: &mut Member,
)
    requires first { IsMember crew.now first.old }
    requires second { IsMember crew.now second.old }
    ensures first { IsMember crew.now first.new }
    ensures second { IsMember crew.now second.new }
{
    let one = sight_of(rt, alloc, crew, first);
    let two = sight_of(rt, alloc, crew, second);
    settles(rt, alloc, crew, first, one, 2);
    settles(rt, alloc, crew, second, two, 3);
}

/// Both planners look, then both settle: the second repair is stale, and counts as an entry of the second planner. Then it rests.
#[test]
fn the_second_repair_is_stale(rt: HostRuntime) {
    let alloc = rt.alloc();
    let Hired {
        crew,
        mut feeder,
        mut members,
    } = hired(&rt, alloc);
    tell(&rt, alloc, &crew, &mut feeder, b"goal 1 obs 10 20 must");
    let mut second = last_of(&rt, &crew, &mut members, Author::Planner(2));
    let mut first = last_of(&rt, &crew, &mut members, Author::Planner(1));
    let executive = last_of(&rt, &crew, &mut members, Author::Executive);
    holds(&rt, "no other member", members.is_empty());
    both_repair(&rt, alloc, &crew, &mut first, &mut second);
    acts(&rt, alloc, &crew, &mut second, Acted::Did(4));
    join_three(&crew, &mut feeder, executive, first, second);
    let (machine, marks) = crew.close(feeder);
    assert_log(&rt, alloc, &machine);
    assert_marks(&rt, &marks);
}

const MARKS: [(u32, Author, u32); 4] = [
    (1, Author::Feeder, 1),
    (2, Author::Planner(1), 1),
    (3, Author::Planner(2), 1),
    (4, Author::Planner(2), 2),
];

fn assert_marks(rt: &impl Abort, marks: &[Mark]) {
    holds(rt, "four marks", marks.len() == 4);
    for (mark, (entry, author, count)) in marks.iter().zip(&MARKS) {
        let wanted = Mark {
            entry: *entry,
            author: *author,
            count: *count,
        };
        holds(rt, "a mark", *mark == wanted);
    }
}

/// The front and the end of each line behind the open entry. Which moves the planners chose is their seeds' matter.
const LINES: [(&str, &str); 4] = [
    ("1 in ok : goal 1 obs 10 20 must", ""),
    ("2 fix 20 open-goal 1 0 10 20 by ", " : ok"),
    ("3 fix 20 open-goal 1 0 10 20 by ", " : stale"),
    ("4 rest clear", ""),
];

fn assert_log(rt: &impl Abort, alloc: Global, machine: &Machine) {
    holds(rt, "five entries", machine.log().len() == 5);
    let model = model(rt, alloc, MODEL);
    let mut number = 0u32;
    let entries = machine.entries_from(alloc, 1).expect(rt, "memory");
    for (entry, (front, end)) in entries.as_slice().iter().zip(&LINES) {
        number = number.wrapping_add(1);
        let line = render(alloc, &model, number, entry).expect(rt, "memory");
        let text = std::str::from_utf8(&line).unwrap_or("").trim_end();
        holds(rt, front, text.starts_with(front) && text.ends_with(end));
    }
}

/// A planner and the executive act, the feeder is told of it, and another planner stops the plan: nobody makes an entry any more.
#[test]
fn a_planner_stops_the_plan(rt: HostRuntime) {
    let alloc = rt.alloc();
    let Hired {
        crew,
        mut feeder,
        mut members,
    } = hired(&rt, alloc);
    tell(&rt, alloc, &crew, &mut feeder, b"goal 1 obs 10 20 must");
    let mut second = last_of(&rt, &crew, &mut members, Author::Planner(2));
    let mut first = last_of(&rt, &crew, &mut members, Author::Planner(1));
    let mut executive = last_of(&rt, &crew, &mut members, Author::Executive);
    acts(&rt, alloc, &crew, &mut first, Acted::Did(2));
    acts(&rt, alloc, &crew, &mut first, Acted::Did(3));
    acts(&rt, alloc, &crew, &mut executive, Acted::Did(4));
    let is_told_of_all = is_told(&rt, alloc, &crew, &mut feeder, (5, false));
    holds(&rt, "five entries", is_told_of_all);
    crew.stop(&rt, &mut second);
    acts(&rt, alloc, &crew, &mut first, Acted::Stopped);
    acts(&rt, alloc, &crew, &mut executive, Acted::Stopped);
    let is_told_of_stop = is_told(&rt, alloc, &crew, &mut feeder, (5, true));
    holds(&rt, "stopped behind five entries", is_told_of_stop);
    join_three(&crew, &mut feeder, executive, first, second);
    let (machine, marks) = crew.close(feeder);
    holds(
        &rt,
        "a mark for each entry",
        machine.log().len() == 5 && marks.len() == 4,
    );
}

//! A log of entries of each sort, with numbers of each length, read from several places.
use crate::asserting::holds;
use pl_conflict::{Code, Conflict};
use pl_entry::{Bytes, Entry, Event, Reason, Reply};
use pl_facts::Options;
use pl_lists::Items;
use pl_log::Log;
use pl_plan::RepairMove;
use std::alloc::{AllocError, Global};
use std::process::Abort;

/// As many entries: twice what is packed together, and some more.
const ENTRIES: u32 = 600;

/// Numbers that take one byte, three and five.
fn scaled(number: u32) -> u32 {
    match number % 3 {
        0 => number % 254,
        1 => number.saturating_add(254),
        _ => u32::MAX - number,
    }
}

fn conflict(number: u32) -> Conflict {
    let code = match number % 2 {
        0 => Code::OpenGoal,
        _ => Code::BadStep,
    };
    Conflict {
        from: scaled(number),
        code,
        subject: 253,
        detail: 254,
        a: 65_535,
        b: 65_536,
    }
}

fn line(alloc: Global, number: u32) -> Result<Bytes, AllocError> {
    let text = format!(in alloc; "tick {number}")?;
    let bytes = text.as_bytes().to_vec(alloc)?;
    Ok(Items::from_vec(bytes))
}

fn repair(number: u32) -> RepairMove {
    let id = scaled(number);
    let start = number;
    match number % 8 {
        0 => RepairMove::Add {
            kind: 3,
            start,
            goal: None,
        },
        1 => RepairMove::Add {
            kind: 3,
            start,
            goal: Some(id),
        },
        2 => RepairMove::Delete { id },
        3 => RepairMove::Shift { id, start },
        4 => RepairMove::Detail { id, alternative: 1 },
        5 => RepairMove::Abstract { id },
        6 => RepairMove::Assign {
            id,
            param: 255,
            value: i64::MIN,
        },
        _ => RepairMove::Drop { goal: id },
    }
}

fn event(alloc: Global, number: u32) -> Result<Event, AllocError> {
    Ok(match number % 9 {
        0 => Event::Opened(Options {
            turns: 1,
            live: 2,
            goals: 3,
            entries: 4,
        }),
        1 => Event::Input(Some(line(alloc, number)?)),
        2 => Event::Input(None),
        3 | 4 => Event::Fix(conflict(number), repair(number / 9)),
        5 => Event::Rest,
        6 => Event::Commit(scaled(number)),
        7 => Event::Dispatch,
        _ => Event::Close,
    })
}

/// A command with a value that is there, and one that is not.
fn sent(alloc: Global, number: u32) -> Result<Reply, AllocError> {
    let mut values = Items::new(alloc);
    values.push(Some(i64::from(number)))?;
    values.push(None)?;
    Ok(Reply::Sent {
        id: scaled(number),
        kind: 0,
        start: number,
        values,
    })
}

/// Mostly the reply that an event has as a rule.
fn reply(alloc: Global, number: u32) -> Result<Reply, AllocError> {
    Ok(match (number % 9, number % 4) {
        (5, 0) => Reply::Rested(Reason::Clear),
        (5, 1) => Reply::Rested(Reason::Spent),
        (5, _) => Reply::Rested(Reason::Stuck),
        (7, _) => sent(alloc, number)?,
        (6, 0) => Reply::Held(conflict(number)),
        (3, 1) => Reply::Locked(number),
        (1, 2) => Reply::BadLine,
        _ => Reply::Done,
    })
}

fn entry(alloc: Global, number: u32) -> Result<Entry, AllocError> {
    Ok(Entry {
        event: event(alloc, number)?,
        reply: reply(alloc, number)?,
    })
}

fn logged(alloc: Global) -> Result<Log, AllocError> {
    let mut log = Log::new(alloc);
    for number in 0..ENTRIES {
        log.reserve()?;
        log.push(entry(alloc, number)?);
    }
    Ok(log)
}

fn text(alloc: Global, entry: &Entry) -> Result<String, AllocError> {
    format!(in alloc; "{:?} {:?}", entry.event, entry.reply)
}

/// Whether the log gives these entries behind so many.
fn gives(alloc: Global, log: &Log, from: u32) -> Result<bool, AllocError> {
    let entries = log.entries_from(alloc, from as usize)?;
    let mut number = from;
    for given in entries.as_slice() {
        let wanted = text(alloc, &entry(alloc, number)?)?;
        if text(alloc, given)?.as_str() != wanted.as_str() {
            return Ok(false);
        }
        number = number.saturating_add(1);
    }
    Ok(number == ENTRIES)
}

#[test]
fn a_log_gives_its_entries(rt: HostRuntime) {
    let alloc = rt.alloc();
    let log = logged(alloc).expect(&rt, "memory");
    let copy = log.copy(alloc).expect(&rt, "memory");
    holds(&rt, "its length", log.len() == 600 && copy.len() == 600);
    for from in [0u32, 1, 255, 256, 257, 511, 512, 513, 599, 600] {
        holds(
            &rt,
            "the log",
            gives(alloc, &log, from).expect(&rt, "memory"),
        );
        holds(
            &rt,
            "its copy",
            gives(alloc, &copy, from).expect(&rt, "memory"),
        );
    }
    holds(&rt, "packed", log.newest_from(511).is_none());
    holds(&rt, "as they stand", log.newest_from(512).is_some());
}

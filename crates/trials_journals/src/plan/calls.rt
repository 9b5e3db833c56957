//! The calls of the plan that several callers act on, each compared with what is wanted.
ghost use Rattle.std.specs.Prelude.{◌≡◌, ◌==◌};
ghost use Rattle.std.specs.List.{list_any};
ghost use Rattle.pl_turn.specs.Passes.{crew_of};
ghost use Rattle.pl_locked.specs.Plans.{BelongsTo};

use crate::asserting::holds;
use crate::rows::{lines, number, word};
use crate::worked::{MODEL, OPEN, model};
use pl_acts::{Acted, Role, View};
use pl_entry::Entry;
use pl_journal::render;
use pl_machine::Stop;
use pl_model::Model;
use pl_shared::{Pass, SharedPlan, work};
use pl_turn::NoGate;
use std::alloc::Global;
use std::process::Abort;
use std::sync::Wait;

pub fn has_newline(line: &[u8]) -> bool
    ensures { result ≡ list_any (λ byte. byte == 10) line.now }
{
    line.iter().any(|byte| *byte == b'\n')
}

/// Feeds a message, and compares the answer.
pub fn tell<R: Abort + Wait>(
    rt: &R,
    plan: &SharedPlan,
    pass: &mut Pass,
    line: &[u8],
    wanted: Result<u32, Stop>,
)
    requires { BelongsTo plan.now pass.old }
    ensures own { BelongsTo plan.now pass.new }
    ensures crew { crew_of pass.new ≡ crew_of pass.old }
{
    holds(rt, "few bytes", line.len() <= 4096);
    holds(rt, "one line", !has_newline(line));
    let fed = plan.feed(rt, pass, Some(line));
    holds(rt, "what is answered", fed == wanted);
}

/// Whether this word is what was done: the number of the entry that was made, or why none was made.
pub fn is_done(acted: &Acted, word: &str) -> bool {
    match acted {
        Acted::Did(number) => word.parse() == Ok(*number),
        Acted::Nothing => word == "nothing",
        Acted::Finished => word == "finished",
        Acted::Stopped => word == "stopped",
    }
}

/// Whether an act was answered by this word.
fn is_said(acted: &Result<Acted, Stop>, word: &str) -> bool {
    match acted {
        Ok(acted) => is_done(acted, word),
        Err(_) => false,
    }
}

/// Lets a role act as often as there are words, and compares the answers.
pub fn acts<R: Abort + Wait>(
    rt: &R,
    alloc: Global,
    plan: &SharedPlan,
    pass: &mut Pass,
    role: &mut Role,
    wanted: &str,
)
    requires { BelongsTo plan.now pass.old }
    ensures own { BelongsTo plan.now pass.new }
    ensures crew { crew_of pass.new ≡ crew_of pass.old }
{
    for word in wanted.split(' ') {
        let acted = plan.act(rt, alloc, pass, role);
        holds(rt, wanted, is_said(&acted, word));
    }
}

/// The lines of entries, numbered from 0 on.
pub fn text(rt: &impl Abort, alloc: Global, model: &Model, entries: &[Entry]) -> Vec<u8> {
    let mut bytes = Vec::new(alloc);
    let mut number = 0u32;
    for entry in entries {
        let line = render(alloc, model, number, entry).expect(rt, "memory");
        bytes.extend_from_slice(&line).expect(rt, "memory");
        number = number.wrapping_add(1);
    }
    bytes
}

/// Ends the input, and compares the answer.
fn end<R: Abort + Wait>(rt: &R, plan: &SharedPlan, pass: &mut Pass, wanted: u32)
    requires { BelongsTo plan.now pass.old }
    ensures own { BelongsTo plan.now pass.new }
    ensures crew { crew_of pass.new ≡ crew_of pass.old }
{
    let fed = plan.feed(rt, pass, None);
    holds(rt, "the end is taken", fed == Ok(wanted));
}

/// Whether a view is answered by this word, where nothing is to be chosen.
fn is_over(view: &Result<View, Stop>, word: &str) -> bool {
    match view {
        Ok(View::Settled(acted)) => is_done(acted, word),
        Err(Stop::LogFull) => word == "full",
        _ => false,
    }
}

/// Views, and compares the answer.
fn views<R: Abort + Wait>(
    rt: &R,
    alloc: Global,
    plan: &SharedPlan,
    pass: &mut Pass,
    role: &mut Role,
    wanted: &str,
)
    requires { BelongsTo plan.now pass.old }
    ensures own { BelongsTo plan.now pass.new }
    ensures crew { crew_of pass.new ≡ crew_of pass.old }
{
    let view = plan.view(rt, alloc, pass, role);
    holds(rt, wanted, is_over(&view, wanted));
}

/// Whether this word is how a role worked: without an act up to the end, or up to a full log.
fn is_worked(made: &Result<u64, Stop>, word: &str) -> bool {
    match made {
        Ok(acts) => *acts == 0 && word == "nothing",
        Err(Stop::LogFull) => word == "full",
        Err(_) => false,
    }
}

/// Lets a role act until nothing is left to do, and compares the answer.
fn works<R: Abort + Wait>(
    rt: &R,
    alloc: Global,
    plan: &SharedPlan,
    pass: &mut Pass,
    role: &mut Role,
    wanted: &str,
)
    requires { BelongsTo plan.now pass.old }
    ensures own { BelongsTo plan.now pass.new }
    ensures crew { crew_of pass.new ≡ crew_of pass.old }
{
    let made = work(rt, alloc, plan, &NoGate, pass, role);
    holds(rt, wanted, is_worked(&made, wanted));
}

/// Compares the journal so far, behind the open entry, where `;` stands for a newline.
fn has_entries<R: Abort + Wait>(
    rt: &R,
    alloc: Global,
    plan: &SharedPlan,
    pass: &mut Pass,
    wanted: &str,
)
    requires { BelongsTo plan.now pass.old }
    ensures own { BelongsTo plan.now pass.new }
    ensures crew { crew_of pass.new ≡ crew_of pass.old }
{
    let part = plan.copy_from(rt, alloc, pass, 0).expect(rt, "memory");
    let written = text(rt, alloc, &model(rt, alloc, MODEL), part.entries.as_slice());
    let wanted = lines(rt, alloc, wanted);
    let whole = format!(in alloc; "{OPEN}{wanted}").expect(rt, "memory");
    holds(rt, "the entries", written.as_slice() == whole.as_bytes());
}

/// Compares how the plan stands: it is done, or was stopped within a round.
fn stands<R: Abort + Wait>(rt: &R, alloc: Global, plan: &SharedPlan, pass: &mut Pass, wanted: &str)
    requires { BelongsTo plan.now pass.old }
    ensures own { BelongsTo plan.now pass.new }
    ensures crew { crew_of pass.new ≡ crew_of pass.old }
{
    let part = plan.copy_from(rt, alloc, pass, 0).expect(rt, "memory");
    let is_so = match wanted {
        "done" => part.closed && part.done && !part.stopped,
        _ => part.stopped && !part.closed && !part.done,
    };
    holds(rt, wanted, is_so);
}

/// Makes the call of a line by one pass, and compares the answer.
pub fn makes<R: Abort + Wait>(
    rt: &R,
    alloc: Global,
    plan: &SharedPlan,
    pass: &mut Pass,
    planner: &mut Role,
    line: &str,
)
    requires { BelongsTo plan.now pass.old }
    ensures own { BelongsTo plan.now pass.new }
    ensures crew { crew_of pass.new ≡ crew_of pass.old }
{
    let mut rest = line;
    match word(&mut rest) {
        "tell" => {
            let entry = number(&mut rest);
            tell(rt, plan, pass, rest.as_bytes(), Ok(entry));
        }
        "refuse" => tell(rt, plan, pass, rest.as_bytes(), Err(Stop::NotNow)),
        "end" => end(rt, plan, pass, number(&mut rest)),
        "plans" => acts(rt, alloc, plan, pass, planner, rest),
        "executes" => acts(rt, alloc, plan, pass, &mut Role::Executive, rest),
        "views" => views(rt, alloc, plan, pass, planner, rest),
        "plans-on" => works(rt, alloc, plan, pass, planner, rest),
        "executes-on" => works(rt, alloc, plan, pass, &mut Role::Executive, rest),
        "entries" => has_entries(rt, alloc, plan, pass, rest),
        "stands" => stands(rt, alloc, plan, pass, rest),
        "count" => {
            let entries = u64::from(number(&mut rest));
            holds(rt, line, plan.entries(pass) == entries);
        }
        _ => plan.stop(rt, pass),
    }
}

//! Scripts of calls of the plan that several callers act on, on one thread, so that no test waits for a bell that is never rung.
ghost use Rattle.std.specs.Prelude.{◌≡◌, ◌≤◌, [], true, length};
ghost use Rattle.pl_turn.specs.Passes.{crew_of, leads, made_by, joined_by};
ghost use Rattle.pl_locked.specs.Plans.{BelongsTo};

use crate::asserting::holds;
use crate::plan::calls::{acts, makes};
use crate::rows::{sides, word};
use crate::worked::shared_model;
use pl_acts::{Acted, Listener, Role, Sight, View};
use pl_choose::Seeded;
use pl_facts::Options;
use pl_machine::Machine;
use pl_shared::{Pass, SharedPlan};
use std::alloc::Global;
use std::process::Abort;
use std::sync::Wait;

/// A plan with nothing planned, and its first pass.
fn opened(rt: &impl Abort, alloc: Global, entries: u32) -> (SharedPlan, Pass)
    requires some { 1 ≤ entries }
    requires bounded { entries ≤ 250000 }
    ensures own { BelongsTo result.0 result.1 }
    ensures first { leads result.1 ≡ true }
    ensures alone { (made_by result.1 ≡ 0) × (joined_by result.1 ≡ []) }
{
    let options = Options {
        turns: 8,
        live: 10000,
        goals: 20000,
        entries,
    };
    let machine = Machine::fresh(alloc, shared_model(rt, alloc), options).expect(rt, "memory");
    match SharedPlan::new(alloc, machine) {
        Ok(made) => made,
        Err(_) => panic!(rt; "memory"),
    }
}

/// How often the bells of the planner, the executive, the feeder, and of anyone were rung.
fn rings<R: Wait>(rt: &R, plan: &SharedPlan) -> [u64; 4] {
    [
        plan.changes(rt, Listener::Planner),
        plan.changes(rt, Listener::Executive),
        plan.changes(rt, Listener::Feeder),
        plan.changes(rt, Listener::Anyone),
    ]
}

/// Whether the bells that were rung since are those of this text, if it names any, or `-`.
fn is_rung(before: &[u64; 4], behind: &[u64; 4], wanted: &str) -> bool {
    wanted.is_empty()
        || (before[0] < behind[0]) == wanted.contains("planner")
            && (before[1] < behind[1]) == wanted.contains("executive")
            && (before[2] < behind[2]) == wanted.contains("feeder")
            && (before[3] < behind[3]) == wanted.contains("anyone")
}

/// Lets the executive act behind a sight, by a pass of its own, and settles.
#[tactic(auto, using(pl_locked::proofs::Halves::can_settle, pl_locked::proofs::Halves::sees_planner))]
fn settles_behind<R: Abort + Wait>(
    rt: &R,
    alloc: Global,
    plan: &SharedPlan,
    pass: &mut Pass,
    executive: &mut Pass,
    role: &mut Role,
)
    requires planner { BelongsTo plan.now pass.old }
    requires executive { BelongsTo plan.now executive.old }
    ensures planner { BelongsTo plan.now pass.new }
    ensures executive { BelongsTo plan.now executive.new }
    ensures crew { crew_of pass.new ≡ crew_of pass.old }
{
    match plan.view(rt, alloc, pass, role) {
        Ok(View::Copy(sight)) => {
            holds(rt, "two entries, and a repair", saw_a_repair(&sight));
            acts(rt, alloc, plan, executive, &mut Role::Executive, "2");
            let settled = plan.settle(rt, alloc, pass, role, sight);
            holds(rt, "the repair is logged", settled == Ok(Acted::Did(3)));
        }
        _ => holds(rt, "a sight", false),
    }
}

fn saw_a_repair(sight: &Sight) -> bool {
    sight.seen == 2 && sight.proposal.is_some()
}

/// Makes the call of a line, by the other pass where it begins so.
fn steps<R: Abort + Wait>(
    rt: &R,
    alloc: Global,
    plan: &SharedPlan,
    pass: &mut Pass,
    other: &mut Pass,
    planner: &mut Role,
    line: &str,
)
    requires pass { BelongsTo plan.now pass.old }
    requires other { BelongsTo plan.now other.old }
    ensures pass { BelongsTo plan.now pass.new }
    ensures other { BelongsTo plan.now other.new }
    ensures crew { crew_of pass.new ≡ crew_of pass.old }
{
    let mut rest = line;
    match word(&mut rest) {
        "other" => makes(rt, alloc, plan, other, planner, rest),
        "settles" => settles_behind(rt, alloc, plan, pass, other, planner),
        _ => makes(rt, alloc, plan, pass, planner, line),
    }
}

/// Makes the calls of a script, one after the other. A line has a call, and behind a ` => ` the bells that it rings.
fn play<R: Abort + Wait>(
    rt: &R,
    alloc: Global,
    plan: &SharedPlan,
    pass: &mut Pass,
    other: &mut Pass,
    script: &str,
)
    requires pass { BelongsTo plan.now pass.old }
    requires other { BelongsTo plan.now other.old }
    ensures pass { BelongsTo plan.now pass.new }
    ensures other { BelongsTo plan.now other.new }
    ensures crew { crew_of pass.new ≡ crew_of pass.old }
{
    let mut planner = Role::Planner(Seeded::new(1));
    for line in script.lines() {
        let (call, bells) = sides(line);
        let before = rings(rt, plan);
        steps(rt, alloc, plan, pass, other, &mut planner, call);
        let behind = rings(rt, plan);
        holds(rt, line, is_rung(&before, &behind, bells));
    }
}

/// Plays a script on a plan with room for so many entries, and compares how many its machine has logged then.
fn assert_plays<R: Abort + Wait>(rt: &R, alloc: Global, room: u32, script: &str, logged: usize) {
    holds(rt, "some room", 1 <= room);
    holds(rt, "no more than may be", room <= 250_000);
    let (plan, mut pass) = opened(rt, alloc, room);
    let mut other = plan.split(alloc, &mut pass).expect(rt, "memory");
    play(rt, alloc, &plan, &mut pass, &mut other, script);
    plan.join(&mut pass, other);
    let machine = plan.close(pass);
    holds(rt, script, machine.log().len() == logged);
}

const WORKED: &str = "tell 1 goal 1 obs 10 20 must
plans 2 3 nothing
executes 4 5 nothing
tell 6 tick 10
plans 7 nothing
executes 8 9 10 nothing
tell 11 end
plans finished
executes finished
count 12
entries 1 in ok : goal 1 obs 10 20 must;2 fix 20 open-goal 1 0 10 20 by add obs 10 goal 1 : ok;3 rest clear;4 commit 30 : ok;5 close;6 in ok : tick 10;7 rest clear;8 dispatch 1 obs 10;9 commit 40 : ok;10 close;11 in end : end;
stands done";

const STOPPED: &str = "other tell 1 tick 3
other refuse tick 4
other stop
plans stopped
executes stopped
count 3
stands stopped";

const ENDED: &str = "end 1
executes-on nothing
stands done";

const FULL: &str = "tell 1 goal 1 obs 10 20 must
plans-on full
stands stopped
refuse end";

/// Whom each entry wakes.
const BELLS: &str = "tell 1 goal 1 obs 10 20 must => planner executive anyone
executes 2 => -
plans 3 => executive anyone
plans 4 => -
executes 5 => -
executes 6 => feeder anyone
end 7 => planner executive anyone";

const WOKEN: &str = "tell 1 tick 3
stop => feeder anyone";

/// A commit comes between what the planner saw and its repair, so that the floor is then above the start that was proposed.
const BETWEEN: &str = "tell 1 goal 1 obs 10 40 must
settles behind
plans 4 5 nothing
entries 1 in ok : goal 1 obs 10 40 must;2 commit 30 : ok;3 fix 40 open-goal 1 0 10 40 by add obs 10 goal 1 : not-for;4 fix 40 open-goal 1 0 10 40 by add obs 30 goal 1 : ok;5 rest clear;";

/// Views that are over at once.
const OVER: &str = "views nothing
tell 1 tick 3
views 2
views nothing
executes 3 4
tell 5 tick 4
stop
views stopped";

/// There is something to repair, and no room for the entry.
const UNSEEN: &str = "tell 1 goal 1 obs 10 40 must
views full";

/// How many entries there is room for, the calls, and how many entries are logged then.
const SCRIPTS: [(u32, &str, usize); 9] = [
    (250_000, WORKED, 12),
    (250_000, STOPPED, 2),
    (250_000, ENDED, 2),
    (3, FULL, 3),
    (250_000, BELLS, 8),
    (250_000, WOKEN, 2),
    (250_000, BETWEEN, 6),
    (250_000, OVER, 6),
    (2, UNSEEN, 2),
];

#[test]
fn plays_on_a_shared_plan(rt: HostRuntime) {
    for (room, script, logged) in SCRIPTS {
        assert_plays(&rt, rt.alloc(), room, script, logged);
    }
}

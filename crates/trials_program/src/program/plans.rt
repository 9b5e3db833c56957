//! Missions, and the plans that a run makes of them.
use crate::pair::missions::{IMAGE, LARGE};
use crate::running::{NONE, assert_does};
use std::alloc::Global;
use std::process::Abort;
use std::sync::Wait;
use std::thread::Threads;

/// How many turns a round has, a model, messages, and the lines behind the open entry's.
pub type Mission<'a> = (u32, &'a str, &'a str, &'a str);

/// Asserts what a run makes of a mission.
pub fn assert_plans<R: Abort + Threads + Wait + Sync>(rt: &R, alloc: Global, mission: Mission<'_>) {
    let (turns, model, messages, text) = mission;
    let words = format!(in alloc; "run solo {turns}").expect(rt, "memory");
    let input = format!(in alloc; "{model}{messages}").expect(rt, "memory");
    let open = "live 10000 goals 20000 entries 250000";
    let wanted = format!(in alloc; "0 open turns {turns} {open}\n{text}").expect(rt, "memory");
    let (input, wanted) = (input.as_bytes(), wanted.as_bytes());
    assert_does(rt, alloc, words.as_str(), NONE, input, 0, wanted);
}

const LEAD: &str = "horizon 100 lead 5 kind obs { duration 5 }
begin
";

/// An activity that comes too late is shifted.
const LATE: &str = "goal 1 obs 10 20 must
tick 10
end
";

const SHIFTED: &str = "1 in ok : goal 1 obs 10 20 must
2 fix 20 open-goal 1 0 10 20 by add obs 10 goal 1 : ok
3 rest clear
4 commit 5 : ok
5 close
6 in ok : tick 10
7 fix 10 late 1 0 0 0 by shift 1 11 : ok
8 rest clear
9 commit 15 : ok
10 close
11 in end : end
";

const TOO_BIG: &str = "horizon 100 lead 30 capacity cam 5 kind big { duration 5 use cam 6 }
begin
";

/// A goal that cannot be served is dropped, where it need not be served.
const DROPPED: &str = "1 in ok : goal 1 big 10 20 may
2 fix 20 open-goal 1 0 10 20 by drop 1 : ok
3 rest clear
4 commit 30 : ok
5 close
6 in eof
";

const SPENT: &str = "1 in ok : goal 1 big 10 20 must
2 fix 20 open-goal 1 0 10 20 by add big 10 goal 1 : ok
3 rest spent
4 commit 10 : ok
5 close
6 in eof
";

const LOW: &str = "horizon 100 lead 30 level bat 3 9 5
begin
";

const STUCK: &str = "1 in ok : tele bat 2
2 rest stuck
3 close
4 in eof
";

const SCAN: &str = "horizon 100 lead 30 kind shot { duration 5 }
kind scan { duration 10 alternative { slot a shot slot b shot order a end b start 0 3 } }
begin
";

const DETAILED: &str = "goal 1 scan 10 20 must
tick 5
end
";

const IN_PARTS: &str = "1 in ok : goal 1 scan 10 20 must
2 fix 20 open-goal 1 0 10 20 by add scan 10 goal 1 : ok
3 rest spent
4 commit 10 : ok
5 close
6 in ok : tick 5
7 fix 10 undetailed 1 0 0 0 by detail 1 0 : ok
8 rest clear
9 commit 35 : ok
10 close
11 in end : end
";

const TAKEN: &str = "1 in ok : goal 7 image 200 260 must frames=8
2 fix 260 open-goal 7 0 200 260 by add image 200 goal 7 : ok
3 fix 200 temporal 1 0 0 0 by add warm_up 130 : ok
4 rest clear
5 commit 120 : ok
6 close
7 in ok : tick 100
8 rest clear
9 commit 220 : ok
10 close
11 in ok : tick 130
12 rest clear
13 dispatch 2 warm_up 130
14 commit 250 : ok
15 close
16 in ok : tele memory 20
17 rest clear
18 close
19 in ok : tick 200
20 rest clear
21 dispatch 1 image 200 frames=8
22 commit 320 : ok
23 close
24 in end : end
";

const MISSIONS: [Mission<'static>; 6] = [
    (8, LEAD, LATE, SHIFTED),
    (8, TOO_BIG, "goal 1 big 10 20 may", DROPPED),
    (1, TOO_BIG, "goal 1 big 10 20 must", SPENT),
    (8, LOW, "tele bat 2", STUCK),
    (1, SCAN, DETAILED, IN_PARTS),
    (16, LARGE, IMAGE, TAKEN),
];

#[test]
fn plans_missions(rt: HostRuntime) {
    for mission in MISSIONS {
        assert_plans(&rt, rt.alloc(), mission);
    }
}

//! Whole journals of runs with measured ends and with halts, as an independent program prints them.
use crate::program::plans::assert_plans;
use std::alloc::Global;
use std::process::Abort;

const CAM: &str = "horizon 100 lead 5 capacity cam 5 kind obs { duration 5 use cam 5 }
begin
";

const OBS: &str = "horizon 100 lead 30 kind obs { duration 5 }
begin
";

const BAT: &str = "horizon 100 lead 30 level bat 3 9 5
begin
";

const SCAN: &str = "horizon 100 lead 30 kind shot { duration 5 }
kind scan { duration 10 alternative { slot a shot slot b shot order a end b start 0 3 order b end parent end 0 40 } }
begin
";

/// An observation takes longer than planned, so the next one comes behind its measured end.
const MEASURED: &str = "1 in ok : goal 1 obs 10 20 must
2 fix 20 open-goal 1 0 10 20 by add obs 10 goal 1 : ok
3 rest clear
4 commit 5 : ok
5 close
6 in ok : tick 8
7 rest clear
8 commit 13 : ok
9 close
10 in ok : tick 10
11 rest clear
12 dispatch 1 obs 10
13 commit 15 : ok
14 close
15 in ok : until 1 30
16 rest clear
17 close
18 in ok : goal 2 obs 20 40 must
19 fix 40 open-goal 2 0 20 40 by add obs 30 goal 2 : ok
20 rest clear
21 close
22 in end : end
";

/// Each refusal of a measured end, in their order. None of them changes the plan.
const REFUSED: &str = "1 in ok : goal 1 obs 10 20 must
2 fix 20 open-goal 1 0 10 20 by add obs 10 goal 1 : ok
3 rest clear
4 commit 5 : ok
5 close
6 in ok : tick 8
7 rest clear
8 commit 13 : ok
9 close
10 in ok : tick 10
11 rest clear
12 dispatch 1 obs 10
13 commit 15 : ok
14 close
15 in bad-line : until 1
16 rest clear
17 close
18 in range : until 1 101
19 rest clear
20 close
21 in not-begun : until 2 30
22 rest clear
23 close
24 in end-back : until 1 10
25 rest clear
26 close
27 in ok : until 1 30
28 rest clear
29 close
30 in ok : goal 2 obs 20 40 must
31 fix 40 open-goal 2 0 20 40 by add obs 30 goal 2 : ok
32 rest clear
33 close
34 in not-begun : until 2 40
35 rest clear
36 close
37 in end : end
";

/// An end that is measured late moves what comes behind it, and one that is measured early makes room.
const MOVED: &str = "1 in ok : goal 1 obs 10 10 must
2 fix 10 open-goal 1 0 10 10 by add obs 10 goal 1 : ok
3 rest clear
4 commit 5 : ok
5 close
6 in ok : goal 2 obs 20 60 must
7 fix 60 open-goal 2 0 20 60 by add obs 20 goal 2 : ok
8 rest clear
9 close
10 in ok : tick 8
11 rest clear
12 commit 13 : ok
13 close
14 in ok : tick 10
15 rest clear
16 dispatch 1 obs 10
17 commit 15 : ok
18 close
19 in ok : until 1 33
20 fix 20 over 0 0 20 25 by shift 2 35 : ok
21 rest clear
22 close
23 in ok : until 1 12
24 rest clear
25 close
26 in too-late : goal 3 obs 12 12 must
27 rest clear
28 close
29 in ok : goal 4 obs 15 15 must
30 fix 15 open-goal 4 0 15 15 by add obs 15 goal 4 : ok
31 rest clear
32 close
33 in end : end
";

/// A child and its parent end at measured moments. A halt lets the other child be moved.
const NESTED: &str = "1 in ok : goal 1 scan 10 20 must
2 fix 20 open-goal 1 0 10 20 by add scan 10 goal 1 : ok
3 fix 10 undetailed 1 0 0 0 by detail 1 0 : ok
4 rest clear
5 commit 30 : ok
6 close
7 in ok : tick 10
8 rest clear
9 dispatch 2 shot 10
10 commit 40 : ok
11 close
12 in ok : until 2 16
13 rest stuck
14 close
15 in ok : until 1 12
16 rest stuck
17 close
18 in ok : halt
19 fix 10 link 1 0 0 0 by shift 3 16 : ok
20 rest stuck
21 close
22 in not-begun : until 3 14
23 rest stuck
24 close
25 in end : end
";

/// A halt lets a goal in ahead of what was committed.
const HALTED: &str = "1 in ok : goal 1 obs 20 40 must
2 fix 40 open-goal 1 0 20 40 by add obs 20 goal 1 : ok
3 rest clear
4 commit 30 : ok
5 close
6 in ok : halt
7 rest clear
8 close
9 in ok : goal 2 obs 10 15 must
10 fix 15 open-goal 2 0 10 15 by add obs 10 goal 2 : ok
11 rest clear
12 close
13 in ok : tick 5
14 rest clear
15 commit 35 : ok
16 close
17 in end : end
";

/// A halt where nothing is committed. The round commits what starts at the present and no more.
const FIRST: &str = "1 in ok : halt
2 rest clear
3 commit 1 : ok
4 close
5 in ok : goal 1 obs 2 2 must
6 fix 2 open-goal 1 0 2 2 by add obs 2 goal 1 : ok
7 rest clear
8 close
9 in ok : tick 1
10 rest clear
11 commit 31 : ok
12 close
13 in end : end
";

/// A halt where less is committed than the present leaves it so.
const BEHIND: &str = "1 in ok : tele bat 2
2 rest stuck
3 close
4 in ok : tick 7
5 rest stuck
6 close
7 in ok : halt
8 rest stuck
9 close
10 in ok : tele bat 5
11 rest clear
12 commit 8 : ok
13 close
14 in ok : tick 8
15 rest clear
16 commit 38 : ok
17 close
18 in eof
";

/// A refused tick leaves a halt as it is, and an accepted one ends it.
const KEPT: &str = "1 in ok : goal 1 obs 20 40 must
2 fix 40 open-goal 1 0 20 40 by add obs 20 goal 1 : ok
3 rest clear
4 commit 30 : ok
5 close
6 in ok : halt
7 rest clear
8 close
9 in tick-back : tick 0
10 rest clear
11 close
12 in tick-beyond : tick 101
13 rest clear
14 close
15 in bad-line : halt now
16 rest clear
17 close
18 in ok : goal 2 obs 10 15 must
19 fix 15 open-goal 2 0 10 15 by add obs 10 goal 2 : ok
20 rest clear
21 close
22 in ok : tick 5
23 rest clear
24 commit 35 : ok
25 close
26 in ok : halt
27 rest clear
28 close
29 in ok : tick 40
30 fix 10 late 2 0 0 0 by delete 2 : ok
31 fix 20 late 1 0 0 0 by delete 1 : ok
32 rest clear
33 commit 70 : ok
34 close
35 in end : end
";

/// The messages that a journal answers, a line each.
fn messages_of(rt: &impl Abort, alloc: Global, journal: &str) -> String {
    let mut messages = String::new(alloc);
    for line in journal.lines() {
        let (_, input) = line.split_once(" in ").unwrap_or(("", ""));
        if let Some((_, message)) = input.split_once(" : ") {
            messages.push_str(message).expect(rt, "memory");
            messages.push_str("\n").expect(rt, "memory");
        }
    }
    messages
}

#[test]
fn takes_measured_ends_and_halts(rt: HostRuntime) {
    let alloc = rt.alloc();
    let runs = [
        (CAM, MEASURED),
        (CAM, REFUSED),
        (CAM, MOVED),
        (SCAN, NESTED),
        (OBS, HALTED),
        (OBS, FIRST),
        (BAT, BEHIND),
        (OBS, KEPT),
    ];
    for (model, journal) in runs {
        let messages = messages_of(&rt, alloc, journal);
        assert_plans(&rt, alloc, (8, model, messages.as_str(), journal));
    }
}

//! How far activities can move, as `flex` tells it.
use crate::program::journals::{Journal, assert_tells};

/// A scan of two shots, the second from 0 to 3 after the end of the first, at a present of 5 and a floor of 10.
const SCAN: &str = "horizon 100 lead 30 kind shot { duration 5 }
kind scan { duration 10 alternative { slot a shot slot b shot order a end b start 0 3 } }";

const SCANNED: &str = "0 open turns 1 live 10000 goals 20000 entries 250000
1 in ok : goal 1 scan 10 20 must
2 fix 20 open-goal 1 0 10 20 by add scan 10 goal 1 : ok
3 rest spent
4 commit 10 : ok
5 close
6 in ok : tick 5
7 fix 10 undetailed 1 0 0 0 by detail 1 0 : ok
";

const SCAN_WINDOWS: &str = "flex windows 3
window 1 10 20
window 2 10 90
window 3 15 95
";

/// The windows, and the paths of the second shot.
const SHOT_PATHS: &str = "flex windows 3
window 1 10 20
window 2 10 90
window 3 15 95
low 5 4 0
low 4 3 -5
low 3 0 -10
high 0 6 100
high 6 5 -5
";

/// A goal whose window lies before the floor, so that its activity has no start.
const LATE: &str = "horizon 100 lead 5 kind obs { duration 5 }";

const LATE_RUN: &str = "0 open turns 8 live 10000 goals 20000 entries 250000
1 in ok : goal 1 obs 10 20 must
2 fix 20 open-goal 1 0 10 20 by add obs 10 goal 1 : ok
3 rest clear
4 commit 5 : ok
5 close
6 in ok : tick 25
";

const NEVER: &str = "flex: no schedule
cycle 0 1 20
cycle 1 0 -26
";

/// Commands, each with a journal and what it says of it.
const SAID: [(&str, Journal<'static>, &str); 3] = [
    ("flex 3", (SCAN, SCANNED), SHOT_PATHS),
    ("flex 4", (SCAN, SCANNED), SCAN_WINDOWS),
    ("flex 0", (LATE, LATE_RUN), NEVER),
];

#[test]
fn tells_how_far_activities_can_move(rt: HostRuntime) {
    for (command, journal, text) in SAID {
        assert_tells(&rt, rt.alloc(), command, journal, 0, text);
    }
}

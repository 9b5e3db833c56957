ghost use Rattle.std.specs.Prelude.{◌<◌, ◌≤◌};
ghost use Rattle.pl_stn.specs.Nets.{IsWellFormed};

use crate::asserting::holds;
use pl_lists::Copied;
use pl_stn::{Edge, Net, Verdict, solve};
use std::alloc::{AllocError, Global};
use std::process::Abort;

/// The edge of a word, as `0>1:-10`.
fn edge(word: &str) -> Edge {
    let (from, rest) = word.split_once('>').unwrap_or((word, ""));
    let (to, most) = rest.split_once(':').unwrap_or((rest, ""));
    Edge {
        from: from.parse().unwrap_or(0),
        to: to.parse().unwrap_or(0),
        most: most.parse().unwrap_or(0),
    }
}

/// The net over so many points with these edges after those to the origin.
fn net(rt: &impl Abort, alloc: Global, points: u32, edges: &str) -> Net
    requires some { 0 < points }
    requires few { points ≤ 20001 }
    ensures { IsWellFormed result }
{
    let mut net = Net::new(alloc, points).expect(rt, "memory");
    for word in edges.split_whitespace() {
        let edge = edge(word);
        holds(rt, "few edges", net.edges.len() < 1_000_000);
        holds(rt, word, edge.from < net.points);
        holds(rt, word, edge.to < net.points);
        holds(rt, word, -100_000_000 <= edge.most);
        holds(rt, word, edge.most <= 100_000_000);
        net.add(edge).expect(rt, "memory");
    }
    net
}

/// What is found for a net and again for its copy: the least times, or the edges of a negative cycle.
fn found(rt: &impl Abort, alloc: Global, points: u32, edges: &str) -> Result<String, AllocError> {
    holds(rt, "a point", 0 < points);
    holds(rt, "few points", points <= 20001);
    let net = net(rt, alloc, points, edges);
    match solve(alloc, &net.copy(alloc)?)?.copy(alloc)? {
        Verdict::Times(times) => format!(in alloc; "times {:?}", times.as_slice()),
        Verdict::Cycle(cycle) => format!(in alloc; "cycle {:?}", cycle.as_slice()),
    }
}

/// Whether a text is one of several.
fn is_one_of(texts: &str, found: &str) -> bool {
    for text in texts.split(" or ") {
        if text == found {
            return true;
        }
    }
    false
}

/// Asserts what is found: a row has a number of points, edges beside those to the origin, and what may be found.
fn assert_found(rt: &impl Abort, alloc: Global, row: &str) {
    let (points, rest) = row.split_once(" / ").unwrap_or((row, ""));
    let (edges, wanted) = rest.split_once(" = ").unwrap_or((rest, ""));
    let found = found(rt, alloc, points.parse().unwrap_or(0), edges).expect(rt, "memory");
    holds(rt, row, is_one_of(wanted, found.as_str()));
}

/// A point alone; a parent of 10 and two children of 5, the second from 0 to 3 after the end of the first; a chain against the
/// order of the edges; and a walk around that allows just what it asks.
const TIMES: &str = "1 /  = times [0]
6 / 0>1:10 1>0:-10 2>3:5 3>2:-5 4>5:5 5>4:-5 3>4:3 4>3:0 = times [0, 10, 0, 5, 5, 10]
4 / 3>2:-1 2>1:-20 1>0:-300 = times [0, 300, 320, 321]
3 / 1>2:-7 2>1:7 = times [0, 7, 0]";

/// Two children of 5, each to start from 0 to 10 after the end of the other; a point before itself; a point before the origin;
/// and two cycles. A cycle may be told from any of its points on.
const CYCLES: &str =
    "6 / 0>1:20 1>0:-20 2>3:5 3>2:-5 4>5:5 5>4:-5 3>4:10 4>3:0 5>2:10 2>5:0 = cycle [8, 14, 10, 12] or cycle [14, 10, 12, 8] or cycle [10, 12, 8, 14] or cycle [12, 8, 14, 10]
2 / 1>1:-1 = cycle [1]
2 / 0>1:-1 = cycle [0, 1] or cycle [1, 0]
5 / 1>2:3 2>1:-4 3>4:-3 4>3:2 = cycle [4, 5] or cycle [5, 4] or cycle [6, 7] or cycle [7, 6]";

#[test]
fn least_times_and_negative_cycles(rt: HostRuntime) {
    for table in [TIMES, CYCLES] {
        for row in table.lines() {
            assert_found(&rt, rt.alloc(), row);
        }
    }
}

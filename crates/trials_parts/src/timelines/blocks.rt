use crate::asserting::holds;
use crate::timelines::counting::Counting;
use crate::timelines::points::{adds_up, fill, finds_outside, has_both};
use pl_blocks::BlockPoints;
use pl_capacity::Capacity;
use pl_points::{Points, Quiet, Steps};

#[test]
fn blocks_say_what_plain_points_say(rt: HostRuntime) {
    let mut points = BlockPoints::new(rt.alloc());
    let mut steps = Steps::new(Counting { ticks: 0 });
    fill(&rt, &mut points, &mut steps);
    holds(&rt, "both", has_both(&points, &mut steps));
    holds(&rt, "their sums", adds_up(&points, &mut steps));
    holds(&rt, "what is outside", finds_outside(&points, &mut steps));
    holds(&rt, "no third", points.len() == 2);
}

#[test]
fn one_use_more_of_ten_thousand(rt: HostRuntime) {
    let points = BlockPoints::new(rt.alloc());
    let mut capacity = Capacity::new(rt.alloc(), 20_002, 10, points);
    for i in 0..10_000 {
        capacity
            .add(2 * i + 1, 2 * i + 2, 1, &mut Steps::new(Quiet))
            .expect(&rt, "memory");
    }
    let mut steps = Steps::new(Counting { ticks: 0 });
    capacity.add(5, 6, 1, &mut steps).expect(&rt, "memory");
    let ticks = steps.ledger().ticks;
    holds(&rt, "few steps", 2 <= ticks && ticks <= 6_024);
}

//! The windows of the activities that can move.
ghost use Rattle.std.specs.Prelude.{◌≡◌, ◌≤◌, ◌<◌, ◌+◌, ◌*◌, ◌≤ℤ◌, pos, length, map, filter, IfOk};
ghost use Rattle.pl_stn.specs.Nets.{time_of};
ghost use Rattle.pl_semantics.specs.PlanStates.{natural, numbered};
ghost use Rattle.pl_flex.specs.State.{AreMoments};
ghost use Rattle.pl_flex.specs.Windows.{may_move, window_of};

use crate::edges::point_at;
use crate::places::is_settled;
use crate::window::Window;
use pl_links::Placed;
use pl_model::Point;
use pl_semantics::PlanState;
use std::alloc::{AllocError, Global};

fn natural(time: i64) -> u32
    requires { (pos 0 ≤ℤ time) × (time ≤ℤ pos 20000000) }
    ensures { result ≡ natural time }
{
    time as u32
}

fn moment_at(times: &[i64], point: u32) -> u32
    requires moments { AreMoments times.now }
    requires point { point < length times.now }
    ensures { result ≡ natural (time_of times.now point) }
{
    natural(times[point as usize])
}

fn window_of(early: &[i64], late: &[i64], place: usize, p: &Placed) -> Window
    requires early { AreMoments early.now }
    requires late { AreMoments late.now }
    requires place { place < 10000 }
    requires early_point { 2 * place + 1 < length early.now }
    requires late_point { 2 * place + 1 < length late.now }
    ensures { result ≡ window_of early.now late.now (place, p.now) }
{
    let point = point_at(place, Point::Start);
    Window {
        id: p.id,
        point,
        least: moment_at(early, point),
        greatest: moment_at(late, point),
    }
}

pub fn windows_among(
    alloc: Global,
    s: &PlanState,
    firm: &[Placed],
    early: &[i64],
    late: &[i64],
) -> Result<Vec<Window>, AllocError>
    requires few { length firm.now ≤ 10000 }
    requires early { AreMoments early.now }
    requires late { AreMoments late.now }
    requires early_points { length early.now ≡ 2 * length firm.now + 1 }
    requires late_points { length late.now ≡ 2 * length firm.now + 1 }
    ensures { IfOk result (λ v. v.items ≡ map (window_of early.now late.now) (filter (may_move s.now) (numbered 0 firm.now))) }
{
    let mut windows = Vec::new(alloc);
    for (place, p) in firm.iter().enumerate() {
        if !is_settled(s, p) {
            windows.push(window_of(early, late, place, p))?;
        }
    }
    Ok(windows)
}

ghost use Rattle.std.specs.Prelude.{◌≡◌, ◌≤ℤ◌, pos, negsuc};
ghost use Rattle.pl_rate.specs.Courses.{IsAmple, gap_of, tilt_of};

use pl_points::Limit;

/// How far a value is from being outside: below 0 where it is outside.
pub(crate) fn gap(limit: Limit, value: i128) -> i128
    requires { IsAmple value }
    ensures { result ≡ gap_of limit value }
{
    match limit {
        Limit::Below(least) => value - least as i128,
        Limit::Above(most) => most as i128 - value,
    }
}

/// How this changes with each moment.
pub(crate) fn tilt(limit: Limit, slope: i128) -> i128
    requires { IsAmple slope }
    ensures { result ≡ tilt_of limit slope }
{
    match limit {
        Limit::Below(_) => slope,
        Limit::Above(_) => -slope,
    }
}

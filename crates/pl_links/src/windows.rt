//! From which moment to which a point may lie.
ghost use Rattle.std.specs.Prelude.{◌≡◌, ℕ, ◌<◌, ◌≤◌, ◌^◌, ◌&&◌, ℤ, pos, ◌-ℤ◌, int_le, IfSome};
ghost use Rattle.pl_links.specs.Broken.{is_apart};
ghost use Rattle.pl_links.specs.Windows.{in_window};

/// The moments of the type that lie from `low` to `high` after this one, if there are any: the
/// first and the last.
pub(crate) fn window_after(moment: u32, low: i64, high: i64) -> Option<(u32, u32)>
    ensures within { (m : ℕ) → m < 2 ^ 32 → in_window result m ≡ is_apart low high moment m }
    ensures rising { IfSome result (λ w. w.0 ≤ w.1) }
{
    let moment = i128::from(moment);
    clipped(moment + i128::from(low), moment + i128::from(high))
}

/// The moments of the type from `low` to `high` after which this one lies.
pub(crate) fn window_before(moment: u32, low: i64, high: i64) -> Option<(u32, u32)>
    ensures within { (m : ℕ) → m < 2 ^ 32 → in_window result m ≡ is_apart low high m moment }
    ensures rising { IfSome result (λ w. w.0 ≤ w.1) }
{
    clipped(before(moment, high), before(moment, low))
}

// So long before a moment.
fn before(moment: u32, by: i64) -> i128
    ensures { result ≡ pos moment -ℤ by }
{
    i128::from(moment) - i128::from(by)
}

fn clipped(from: i128, to: i128) -> Option<(u32, u32)>
    ensures within { (m : ℕ) → m < 2 ^ 32 →
        in_window result m ≡ (int_le from (pos m) && int_le (pos m) to) }
    ensures rising { IfSome result (λ w. w.0 ≤ w.1) }
{
    let first = from.max(0);
    let last = to.min(i128::from(u32::MAX));
    if first <= last {
        Some((first as u32, last as u32))
    } else {
        None
    }
}

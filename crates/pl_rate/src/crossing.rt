ghost use Rattle.std.specs.Prelude.{◌≡◌, ◌<◌, ◌≤◌, ◌+◌, ◌*◌, ◌^◌, ℕ, ◌≤ℤ◌, ◌+ℤ◌, ◌*ℤ◌, pos, neg_ℤ, nat_le, int_lt};
ghost use Rattle.pl_points.specs.Spans.{within};
ghost use Rattle.pl_rate.specs.Courses.{IsModest};

/// The least number of steps that reach the amount, or the count where fewer than it do not.
fn first_reaching(amount: u128, step: u128, count: u32) -> u32
    requires step { 0 < step }
    requires small { (step < 2 ^ 116) × (amount < 2 ^ 116) }
    ensures bound { result ≤ count }
    ensures exact { (k : ℕ) → k < count → nat_le amount (step * k) ≡ nat_le result k }
{
    let whole = (amount + (step - 1)) / step;
    if whole < count as u128 {
        whole as u32
    } else {
        count
    }
}

/// Which of the first moments of a straight line lie below 0: from a place up to another.
pub(crate) fn negative_part(gap: i128, slope: i128, count: u32) -> (u32, u32)
    requires { IsModest gap × IsModest slope }
    ensures order { result.0 ≤ result.1 }
    ensures bound { result.1 ≤ count }
    ensures exact { (k : ℕ) → k < count → int_lt (gap +ℤ (slope *ℤ pos k)) (pos 0) ≡ within result.0 result.1 k }
{
    if gap < 0 {
        if slope <= 0 {
            return (0, count);
        }
        return (
            0,
            first_reaching(gap.unsigned_abs(), slope.unsigned_abs(), count),
        );
    }
    if slope >= 0 {
        return (count, count);
    }
    (
        first_reaching(gap.unsigned_abs() + 1, slope.unsigned_abs(), count),
        count,
    )
}

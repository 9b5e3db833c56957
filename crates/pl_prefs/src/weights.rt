//! Points of a weight.
ghost use Rattle.std.specs.Prelude.{◌≡◌, ◌*ℤ◌};
ghost use Rattle.pl_prefs.specs.Bounds.{IsWithin, IsSumOf};
ghost use Rattle.pl_prefs.specs.Prefers.{IsWeight};

/// A weight times an amount.
pub(crate) fn weighed(weight: i64, amount: i128) -> i128
    requires weight { IsWeight weight }
    requires amount { IsSumOf 32 amount }
    ensures value { result ≡ weight *ℤ amount }
    ensures within { IsWithin 1 result }
{
    i128::from(weight) * amount
}

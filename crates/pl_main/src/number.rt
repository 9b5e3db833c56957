ghost use Rattle.std.specs.Prelude.{◌≡◌};
ghost use Rattle.pl_main.specs.Numbers.{number_in};

/// The value of a text that is 1 to 18 decimal digits; leading zeros are allowed.
#[tactic(auto, unfolding(crate::specs::Numbers::number_in))]
pub fn read_number(text: &[u8]) -> Option<u64>
    ensures { result ≡ number_in text.now }
{
    if text.is_empty() || text.len() > 18 {
        return None;
    }
    let mut value = 0u64;
    for digit in text {
        if *digit < b'0' || *digit > b'9' {
            return None;
        }
        value = value * 10 + u64::from(*digit - b'0');
    }
    Some(value)
}

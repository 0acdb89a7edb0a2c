// Decimal numbers.
ghost use Rattle.std.specs.Prelude.{◌≡◌, IfSome, ◌≤◌};
ghost use Rattle.px_base.specs.Numbers.{decimal};

/// The number that one or more decimal digits stand for, if it is at most `most`.
#[tactic(auto, unfolding(crate::specs::Numbers::decimal))]
pub fn read_decimal(bytes: &[u8], most: u64) -> Option<u64>
    ensures value { result ≡ decimal most bytes.now }
    ensures within { IfSome result (λ n. n ≤ most) }
{
    if bytes.is_empty() {
        return None;
    }
    let mut value = 0u128;
    'digits: for byte in bytes {
        if !byte.is_ascii_digit() {
            return None;
        }
        value = 10 * value + u128::from(*byte - b'0');
        if value > u128::from(most) {
            return None;
        }
    }
    Some(value as u64)
}

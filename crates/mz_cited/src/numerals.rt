//! The values of numerals.
ghost use Rattle.std.specs.Prelude.{◌≡◌, ◌+◌, ◌-◌, ◌*◌};
ghost use Rattle.mz_cited.specs.Cited.{if_within, value_of};

/// Ten times the number and the digit, where that has at most 64 bits.
#[tactic(auto, using(crate::proofs::NumeralLemmas::digit_rules))]
fn with_digit(n: u64, digit: u8) -> Option<u64>
    ensures { result ≡ if_within (10 * n + (digit - 48)) }
{
    let value = 10 * u128::from(n) + u128::from(digit.saturating_sub(48));
    if value > 18446744073709551615 {
        return None;
    }
    Some(value as u64)
}

/// The value of a numeral, where it has at most 64 bits.
#[tactic(auto, using(crate::proofs::NumeralLemmas::value_rules))]
pub fn value_of(digits: &[u8]) -> Option<u64>
    ensures { result ≡ value_of digits.now }
{
    let mut n = 0;
    for digit in digits {
        match with_digit(n, *digit) {
            Some(m) => n = m,
            None => return None,
        }
    }
    Some(n)
}

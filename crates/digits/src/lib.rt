// The values of digits in a text, decimal and hexadecimal.
#![tactic(auto)]

ghost use Rattle.std.specs.Prelude.{◌≡◌};
ghost use Rattle.digits.specs.Digits.{decimal_of, digit_of, pair_of};

/// The value of a decimal digit.
pub fn decimal_digit(b: u8) -> Option<u8>
    ensures { result ≡ decimal_of b }
{
    match b {
        b'0'..=b'9' => Some(b - b'0'),
        _ => None,
    }
}

/// The value of a hexadecimal digit, in either case.
pub fn hex_digit(b: u8) -> Option<u8>
    ensures { result ≡ digit_of b }
{
    match b {
        b'A'..=b'F' => Some(b - b'A' + 10),
        b'a'..=b'f' => Some(b - b'a' + 10),
        _ => decimal_digit(b),
    }
}

/// The byte that two hexadecimal digits stand for, the high one first.
pub fn hex_pair(high: u8, low: u8) -> Option<u8>
    ensures { result ≡ pair_of (digit_of high) (digit_of low) }
{
    Some(hex_digit(high)? * 16 + hex_digit(low)?)
}

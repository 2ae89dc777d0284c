ghost use Rattle.std.specs.Prelude.{◌≡◌};
ghost use Rattle.script.specs.Numbers.{number_of, appended};

use digits::decimal_digit;

// The value of digits of a value and one more, or none where it is no digit or the value passes 2^64 - 1.
#[tactic(auto, unfolding(crate::specs::Numbers::appended))]
fn append(value: usize, digit: u8) -> Option<usize>
    ensures { result ≡ appended value digit }
{
    let unit = decimal_digit(digit)?;
    value.checked_mul(10)?.checked_add(usize::from(unit))
}

/// The value of a word of decimal digits, leading zeros allowed; none where it has no or other bytes, or passes 2^64 - 1.
#[tactic(auto, using(crate::proofs::Counting::begins, crate::proofs::Counting::refused, crate::proofs::Counting::ends), unfolding(crate::specs::Numbers::number_of))]
pub fn number(word: &[u8]) -> Option<usize>
    ensures { result ≡ number_of word.now }
{
    if word.is_empty() {
        return None;
    }
    let mut value: usize = 0;
    for b in word {
        value = append(value, *b)?;
    }
    Some(value)
}

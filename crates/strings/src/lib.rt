// The bytes that a string of a grammar text stands for.
#![tactic(auto)]

ghost use Rattle.std.specs.Prelude.{◌≡◌};
ghost use Rattle.arena.specs.Bounded.{stored, upto};
ghost use Rattle.strings.specs.Decoding.{plain, decode, decoded_length, bytes_of, First};

use arena::Arena;
use digits::hex_pair;

// Whether a byte of a body stands for itself.
fn is_plain(b: u8) -> bool
    ensures { result ≡ plain b }
{
    matches!(b, b' '..=b'~') && b != b'"' && b != b'\\'
}

// The byte that the front of a body stands for, and the body after it; none where the front is not allowed, or nothing is left.
#[tactic(auto, using(crate::proofs::Rests::refused_front, std::proofs::lemmas::Bool::Decides::nat_tests))]
fn first(body: &[u8]) -> Option<(u8, &[u8])>
    ensures { First body.now result }
{
    match body {
        [b'\\', b'x', high, low, rest @ ..] => Some((hex_pair(*high, *low)?, rest)),
        [b, rest @ ..] if is_plain(*b) => Some((*b, rest)),
        _ => None,
    }
}

/// How many bytes a string's body stands for, or none where the body is not allowed.
#[tactic(auto, using(crate::proofs::Rests::counted_none, crate::proofs::Rests::counted_more))]
pub fn decoded_len(body: &[u8]) -> Option<usize>
    ensures { result ≡ decoded_length (decode body.now) }
{
    let mut n = 0;
    let mut rest = body;
    while !rest.is_empty() {
        (_, rest) = first(rest)?;
        n += 1;
    }
    Some(n)
}

/// Appends the bytes that a string's body stands for, as far as there is room; none for a body that is not allowed.
#[tactic(auto, using(crate::proofs::Rests::not_allowed, crate::proofs::Rests::begins, crate::proofs::Rests::goes_on, crate::proofs::Rests::all_there))]
pub fn decode_into(body: &[u8], out: &mut Arena<u8, 513>)
    ensures { stored out.new ≡ upto 513 (stored out.old) (bytes_of body.now) }
{
    if decoded_len(body).is_none() {
        return;
    }
    let mut rest = body;
    while let Some((b, more)) = first(rest) {
        out.put(b);
        rest = more;
    }
}

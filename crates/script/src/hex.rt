ghost use Rattle.std.specs.Prelude.{◌≡◌, IfOk};
ghost use Rattle.script.specs.Hex.{hex_bytes, items_of};

use digits::hex_pair;
use std::alloc::{AllocError, Global};

/// The bytes that a text of digit pairs gives, spaces allowed between pairs; none where it has another form.
pub fn decode_hex(heap: Global, text: &[u8]) -> Result<Option<Vec<u8>>, AllocError>
    ensures { IfOk result (λ o. items_of o ≡ hex_bytes text.now) }
{
    let mut out = Vec::new(heap);
    let mut left = text;
    while !left.is_empty() {
        match left {
            [b' ', more @ ..] => left = more,
            [high, low, more @ ..] => {
                let Some(b) = hex_pair(*high, *low) else {
                    return Ok(None);
                };
                out.push(b)?;
                left = more;
            }
            _ => return Ok(None),
        }
    }
    Ok(Some(out))
}

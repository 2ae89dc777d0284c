ghost use Rattle.std.specs.Prelude.{◌≡◌, ◌≤◌};

use crate::refusal::Refusal;

/// The most bytes of a patch.
const LONGEST_PATCH: usize = 8;

/// An entry of the patch table: some bytes, and the place from which they are shown. Of `bytes` the first `len` count; a blank one has none.
#[derive(Clone, Copy)]
pub struct Patch {
    place: usize,
    len: usize,
    bytes: [u8; LONGEST_PATCH],
    ghost small: { len ≤ 8 },
}

impl Patch {
    ghost use Rattle.input.specs.Errata.{erratum_at, erratum_of, Holds};

    /// The patch of some bytes at a place, if they are as many as an entry can hold.
    pub fn new(place: usize, bytes: &[u8]) -> Result<Patch, Refusal>
        ensures { Holds place bytes.now result }
    {
        let len = bytes.len();
        if len == 0 || len > LONGEST_PATCH {
            return Err(Refusal::PatchLength);
        }
        let mut held = [0; LONGEST_PATCH];
        held[..len].copy_from_slice(bytes);
        Ok(Patch {
            place,
            len,
            bytes: held,
        })
    }

    /// The byte that it shows at a place, if any.
    pub fn at(&self, place: usize) -> Option<u8>
        ensures { result ≡ erratum_at (erratum_of self.now) place }
    {
        let from = place.checked_sub(self.place)?;
        if from < self.len {
            self.bytes.get(from).copied()
        } else {
            None
        }
    }
}

impl Default for Patch {
    ghost use Rattle.std.specs.Prelude.{[]};
    ghost use Rattle.input.specs.Errata.{erratum_of};

    ghost is_default = { λ p. erratum_of p ≡ record { place = 0; bytes = [] } };

    fn default() -> Patch {
        Patch {
            place: 0,
            len: 0,
            bytes: [0; LONGEST_PATCH],
        }
    }
}

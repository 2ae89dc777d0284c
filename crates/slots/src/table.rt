ghost use Rattle.std.specs.Prelude.{◌≡◌, ◌≤◌, length};

use code::Name;

/// The most names that a table holds.
const ROOM: usize = 9;

/// Up to nine names. A rule has at most eight attribute names, so nine tell that there are too many; further ones are dropped. Of `names` the first `len` stand.
#[derive(Clone, Copy, PartialEq, Eq, Debug)]
pub struct Slots {
    names: [Name; ROOM],
    len: usize,
    ghost whole: { length names ≡ 9 },
    ghost few: { len ≤ 9 },
}

impl Slots {
    ghost use Rattle.std.specs.Prelude.{[], take, Some};
    ghost use Rattle.code.specs.Names.{letters};
    ghost use Rattle.lookup.specs.Lookup.{place_in};
    ghost use Rattle.slots.specs.Tables.{listed, kept};

    /// A table without names.
    pub fn none() -> Slots
        ensures { listed result ≡ [] }
    {
        Slots {
            names: [Name::of(b""); ROOM],
            len: 0,
        }
    }

    // The names that stand.
    fn held(&self) -> &[Name]
        ensures { result.now ≡ take self.now.len self.now.names }
    {
        &self.names[..self.len]
    }

    /// How many names stand there.
    pub fn count(&self) -> usize
        ensures { result ≡ length (listed self.now) }
    {
        self.held().len()
    }

    /// The slot of a name: its place among the names.
    pub fn slot(&self, name: &[u8]) -> Option<usize>
        ensures { result ≡ place_in (listed self.now) name.now }
    {
        self.held().iter().position(|other| other.bytes() == name)
    }

    /// Appends a name, unless it stands there or there is no more room.
    pub fn note(&mut self, name: &Name)
        ensures { listed self.new ≡ kept (listed self.old) (Some (letters name.now)) }
    {
        if self.len < ROOM && self.slot(name.bytes()).is_none() {
            self.names[self.len] = *name;
            self.len += 1;
        }
    }
}

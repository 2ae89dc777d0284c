ghost use Rattle.std.specs.Prelude.{◌≡◌};
ghost use Rattle.arena.specs.Parts.{part};

/// A part of a list, from one place up to another.
#[derive(Clone, Copy, PartialEq, Eq, Debug)]
pub struct Span {
    pub from: usize,
    pub to: usize,
}

impl Span {
    /// The part of a list that the span tells, as far as the list goes.
    pub fn of<T>(self, items: &[T]) -> &[T]
        ensures { result.now ≡ part self items.now }
    {
        let to = self.to.min(items.len());
        let from = self.from.min(to);
        &items[from..to]
    }
}

/// The code of a window's two ends.
#[derive(Clone, Copy, PartialEq, Eq, Debug)]
pub struct Ends {
    pub left: Span,
    pub right: Span,
}

ghost use Rattle.std.specs.Prelude.{◌≡◌, length};
ghost use Rattle.input.specs.Bytes.{byte_at, in_order, window_shown};
ghost use Rattle.input.specs.Windows.{size, cover};

use crate::Input;

/// The places from `left` up to but not including `right`.
#[derive(Clone, Copy, PartialEq, Eq, Debug, Default)]
pub struct Window {
    pub left: usize,
    pub right: usize,
}

impl Window {
    /// How many places it covers; none where its ends are out of order.
    pub fn len(self) -> usize
        ensures { result ≡ size self }
    {
        self.right.saturating_sub(self.left)
    }

    /// Whether it is in order and not past the end of a list of `len` bytes.
    pub fn is_in(self, len: usize) -> bool
        ensures { result ≡ in_order self.left self.right len }
    {
        self.left <= self.right && self.right <= len
    }

    /// The smallest window over two; an empty one counts for nothing.
    #[tactic(auto, using(std::proofs::lemmas::Bool::Decides::nat_tests), unfolding(crate::specs::Windows::cover))]
    pub fn join(self, other: Window) -> Window
        ensures { result ≡ cover self other }
    {
        if other.right <= other.left {
            self
        } else if self.right <= self.left {
            other
        } else {
            Window {
                left: self.left.min(other.left),
                right: self.right.max(other.right),
            }
        }
    }
}

/// An input that shows one window of another, or the empty list where the window is not in it.
#[derive(Clone, Copy, Drop)]
pub struct WindowInput<I> {
    below: I,
    window: Window,
}

impl<I: Input> WindowInput<I> {
    pub fn new(below: I, window: Window) -> WindowInput<I>
        ensures { result ≡ record { below = below; window = window } }
    {
        WindowInput { below, window }
    }
}

impl<I: Input> Input for WindowInput<I> {
    ghost shown = { λ s. window_shown (I.Input.shown s.below) s.window.left s.window.right };

    fn len(&self) -> usize {
        if self.window.is_in(self.below.len()) {
            self.window.len()
        } else {
            0
        }
    }

    fn byte(&self, place: usize) -> Option<u8> {
        if place < self.len() {
            self.below.byte(self.window.left + place)
        } else {
            None
        }
    }
}

// The listed numbers of answers: 0 for a call that was accepted, and for each refusal a number of its own.
#![tactic(auto)]

ghost use Rattle.std.specs.Prelude.{◌≡◌, ℕ};
ghost use Rattle.answers.specs.Listed.{listed_of};

/// What has a number in listings.
pub trait Numbered {
    ghost listed: { Self → ℕ };

    fn number(&self) -> u8
        ensures { result ≡ listed self.now };
}

// A call that gives nothing was accepted.
impl Numbered for () {
    ghost listed = { λ _. 0 };

    fn number(&self) -> u8 {
        0
    }
}

// An answer has the number of what it gives, or of its refusal.
impl<T: Numbered, E: Numbered> Numbered for Result<T, E> {
    ghost listed = { listed_of T.Numbered.listed E.Numbered.listed };

    fn number(&self) -> u8 {
        match self {
            Ok(given) => given.number(),
            Err(refusal) => refusal.number(),
        }
    }
}

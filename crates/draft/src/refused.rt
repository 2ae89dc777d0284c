ghost use Rattle.std.specs.Prelude.{◌≡◌};
ghost use Rattle.draft.specs.Refusing.{refused_for, refused_number, refused_place};

use answers::Numbered;
use expr::Refusal;

/// Why a text was not taken, with the place that is told.
#[derive(Clone, Copy, PartialEq, Eq, Debug)]
pub enum Refused {
    /// more than 65,536 bytes
    TooLong,
    /// no token, or a name, number or string that is not allowed
    Token(usize),
    /// a token against the form, or an early end
    Form(usize),
    /// a bracket 17 deep
    Deep(usize),
    /// a limit of the draft passed
    Limit,
}

impl From<Refusal> for Refused {
    ghost from_gives = { λ refusal refused. refused ≡ refused_for refusal };

    fn from(refusal: Refusal) -> Refused {
        match refusal {
            Refusal::Form(place) => Refused::Form(place),
            Refusal::Deep(place) => Refused::Deep(place),
        }
    }
}

impl Numbered for Refused {
    ghost listed = { refused_number };

    fn number(&self) -> u8 {
        match self {
            Refused::TooLong => 1,
            Refused::Token(_) => 2,
            Refused::Form(_) => 3,
            Refused::Deep(_) => 4,
            Refused::Limit => 5,
        }
    }
}

impl Refused {
    /// The place in the text that is told, or 0 where none is.
    pub fn place(&self) -> usize
        ensures { result ≡ refused_place self.now }
    {
        match self {
            Refused::Token(place) | Refused::Form(place) | Refused::Deep(place) => *place,
            Refused::TooLong | Refused::Limit => 0,
        }
    }
}

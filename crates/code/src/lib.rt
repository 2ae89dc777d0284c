// The code of expressions: parts and operators in the order of their evaluation.
#![tactic(auto)]

ghost use Rattle.std.specs.Prelude.{◌≡◌, List, [], ◌∷◌};
ghost use Rattle.arena.specs.Bounded.{upto};
ghost use Rattle.code.specs.Pieces.{piece, codes};

use arena::Arena;
use operators::Op;

mod name;

pub use name::Name;

#[derive(Clone, Copy, PartialEq, Eq, Debug)]
pub enum Code {
    Number(u64),
    Eoi,
    Name(Name),
    Field(Name, Name),
    Operator(Op),
    // what stands before it was written in brackets: a part that counts, and no work
    Bracket,
}

/// The code of a draft's expressions, with room for one piece more than a draft may have.
pub type Codes = Arena<Code, 1025>;

/// Appends one piece of code, unless there is no more room.
#[tactic(auto, using(arena::proofs::Bounds::seen))]
pub fn emit(out: &mut Codes, code: Code)
    ensures { codes out.new ≡ upto 1025 (codes out.old) (piece code ∷ []) }
{
    out.put(code);
}

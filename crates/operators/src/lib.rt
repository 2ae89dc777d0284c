// The operators of expressions, and what each makes of two numbers.
#![tactic(auto)]

ghost use Rattle.std.specs.Prelude.{◌≡◌};
ghost use Rattle.operators.specs.Applied.{applied};
ghost use Rattle.operators.specs.declared.Op.TheVariants.{Shift};

/// The operators of expressions: `+ - * / % << = <`.
#[derive(Clone, Copy, PartialEq, Eq, Debug)]
pub enum Op {
    Plus,
    Minus,
    Times,
    Divide,
    Remainder,
    Shift,
    Equal,
    Less,
}

impl Op {
    /// What two numbers come to, or none.
    #[tactic(auto, using(std::proofs::lemmas::Bool::Decides::nat_tests), unfolding(crate::specs::Applied::applied, crate::specs::Applied::in_range))]
    pub fn apply(self, p: u64, q: u64) -> Option<u64>
        ensures { result ≡ applied self p q }
    {
        match self {
            Op::Plus => p.checked_add(q),
            Op::Minus => p.checked_sub(q),
            Op::Times => p.checked_mul(q),
            Op::Divide => p.checked_div(q),
            Op::Remainder => p.checked_rem(q),
            Op::Shift => shift(p, q),
            Op::Equal => Some(u64::from(p == q)),
            Op::Less => Some(u64::from(p < q)),
        }
    }
}

// p times 2^q, or none.
#[tactic(auto, using(std::proofs::lemmas::Bool::Decides::nat_tests, std::proofs::lemmas::Nat::one_shl), unfolding(crate::specs::Applied::applied, crate::specs::Applied::in_range))]
fn shift(p: u64, q: u64) -> Option<u64>
    ensures { result ≡ applied Shift p q }
{
    let power = 1u64.checked_shl(u32::try_from(q).ok()?)?;
    p.checked_mul(power)
}

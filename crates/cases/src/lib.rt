// The worked cases of the rules, in one list with one proof.
#![tactic(auto)]

ghost use Rattle.cases.specs.Cases.{CasesStand};

/// Every worked case comes out as it is told.
#[tactic(auto, using(crate::proofs::Standing::cases_stand))]
pub fn worked_cases()
    ensures { CasesStand }
{}

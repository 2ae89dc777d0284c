// The theorems of the meaning. Each function says one by its contract, and does nothing.
ghost use Rattle.meaning.specs.Locality.{Locality, Untouched, SameReaders};
ghost use Rattle.meaning.specs.Shape.{Shape};

/// A parse depends on the bytes inside its reach alone, and on what its readers answer.
#[tactic(auto, using(crate::proofs::Locality::locality, crate::proofs::Locality::untouched, crate::proofs::Locality::same_readers))]
pub fn reach_tells_all()
    ensures local { Locality }
    ensures untouched { Untouched }
    ensures readers { SameReaders }
{}

/// What every outcome looks like, whatever the grammar, readers, limits, rule and bytes.
#[tactic(auto, using(crate::proofs::Shape::shape))]
pub fn results_have_shape()
    ensures { Shape }
{}

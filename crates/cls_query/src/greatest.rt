//! The greatest number of a component that occurs in a term.
ghost use Rattle.std.specs.Prelude.{◌≡◌};
ghost use Rattle.cls_term.specs.Components.{greatest_of};

use cls_term::CodedTerm;

/// The greatest number of a component in the term.
#[tactic(auto, using(crate::proofs::GreatestNumbers::steps))]
pub fn greatest(term: &CodedTerm) -> u32
    ensures { result ≡ greatest_of term.now }
{
    let mut rest = term.code();
    let mut most = 0;
    // In a code each component stands before the number of its arguments.
    while rest.len() >= 2 {
        most = most.max(rest[0]);
        rest = &rest[2..];
    }
    most
}

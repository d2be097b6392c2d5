// Calls, and the names they have in the tables.
use cards::Card;
use case::{Call, Claim};

// The claim of a clause of the formula.
pub(crate) fn axiom(clause: usize) -> Call {
    Call::Claim(Claim::Axiom(clause))
}

// The claim of the resolvent of two lines upon a variable.
pub(crate) fn resolution(first: usize, second: usize, variable: usize) -> Call {
    Call::Claim(Claim::Resolution(first, second, variable))
}

// The claim of a line reduced by a variable.
pub(crate) fn reduction(line: usize, variable: usize) -> Call {
    Call::Claim(Claim::Reduction(line, variable))
}

// The claim of the image of a line under a card.
pub(crate) fn symmetry(line: usize, card: Card) -> Call {
    Call::Claim(Claim::Symmetry(line, card))
}

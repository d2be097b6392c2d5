// The claim of a line, as a value.
use cards::Card;

// Clause j; lines p and q resolved upon v; line p reduced by v; or the image of line p under a card.
#[derive(Clone, Copy, Debug, PartialEq, Eq)]
pub enum Claim {
    Axiom(usize),
    Resolution(usize, usize, usize),
    Reduction(usize, usize),
    Symmetry(usize, Card),
}

// A formula seen through an admissible card.
ghost use Rattle.laws.specs.Cards.{Admissible};
ghost use Rattle.cards.specs.Meant.{meant};

use cards::Card;
use formula::Formula;
use std::error::Error;
use std::fmt;

mod making;
mod questions;

// The formula below, and a card that is admissible for it.
#[derive(Drop)]
pub struct Image<F: Formula> {
    below: F,
    card: Card,
    ghost admissible: { ∥ Admissible (F.meaning below) (meant card) ∥₁ },
}

// The formula that has no image under a card that is not admissible.
#[derive(Clone, Copy, Debug, PartialEq, Eq, Drop)]
pub struct Inadmissible<F> {
    pub below: F,
}

impl<F> fmt::Display for Inadmissible<F> {
    ghost use Rattle.std.specs.Prelude.{Some, codes};

    ghost output = { λ _. Some (codes "inadmissible card") };

    fn fmt<W: fmt::Write>(&self, f: &mut fmt::Formatter<W>) -> fmt::Result {
        write!(f, "inadmissible card")
    }
}

impl<F: fmt::Debug + Drop> Error for Inadmissible<F> {}

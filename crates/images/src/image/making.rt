// The image of a formula under an admissible card.
ghost use Rattle.std.specs.Prelude.{◌≡◌, MatchResult};
ghost use Rattle.laws.specs.Cards.{Admissible};
ghost use Rattle.cards.specs.Meant.{meant};
ghost use Rattle.images.specs.Imaged.{imaged};
ghost use Rattle.images.specs.Within.{formula_in};

use super::{Image, Inadmissible};
use cards::Card;
use formula::Formula;
use symmetry::is_admissible;

impl<F: Formula> Image<F> {
    // The image of the formula below, or that formula back where the card is not admissible for it.
    pub fn new(below: F, card: Card) -> Result<Image<F>, Inadmissible<F>>
        ensures { MatchResult result (λ x. Admissible (F.meaning below) (meant card) × (formula_in F.meaning x ≡ imaged (meant card) (F.meaning below))) (λ e. (Admissible (F.meaning below) (meant card) → ⊥) × (e.below ≡ below)) }
    {
        if is_admissible(&below, &card) {
            Ok(Image { below, card })
        } else {
            Err(Inadmissible { below })
        }
    }
}

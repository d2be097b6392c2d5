// Whether a card is a symmetry of a formula, and if not, why.
ghost use Rattle.std.specs.Prelude.{◌≡◌, true, ◌↔◌, MatchResult};
ghost use Rattle.laws.specs.Cards.{Symmetry};
ghost use Rattle.cards.specs.Meant.{meant};
ghost use Rattle.symmetry.specs.Faults.{Fault};

use crate::admissible::is_admissible;
use crate::carrying::carries;
use crate::fault::SymmetryFault;
use cards::Card;
use formula::Formula;

// Whether the card is admissible, and takes clauses to clauses.
pub fn is_symmetry<F: Formula>(f: &F, card: &Card) -> bool
    ensures { (result ≡ true) ↔ Symmetry (F.meaning f.now) (meant card.now) }
{
    is_admissible(f, card) && carries(f, card)
}

// That the card is a symmetry, or the first reason why it is none.
pub fn check_symmetry<F: Formula>(f: &F, card: &Card) -> Result<(), SymmetryFault>
    ensures { MatchResult result (λ _. Symmetry (F.meaning f.now) (meant card.now)) (Fault (F.meaning f.now) (meant card.now)) }
{
    if !is_admissible(f, card) {
        return Err(SymmetryFault::Level);
    }
    if !carries(f, card) {
        return Err(SymmetryFault::Asymmetry);
    }
    Ok(())
}

// The six questions, answered from the formula below: its prefix, and as many clauses and as long, with the images of their literals.
ghost use Rattle.cards.specs.Meant.{meant};
ghost use Rattle.images.specs.Imaged.{imaged};
ghost use Rattle.images.specs.Admitted.{image_formed};

use super::Image;
use formula::{Formula, Quantifier};

impl<F: Formula> Formula for Image<F> {
    ghost meaning = { λ x. imaged (meant x.card) (F.Formula.meaning x.below) };

    ghost formed = { λ x. image_formed (meant x.card) (F.Formula.meaning x.below) (F.Formula.formed x.below) x.admissible };

    fn variable_count(&self) -> usize {
        self.below.variable_count()
    }

    fn level(&self, v: usize) -> u16 {
        self.below.level(v)
    }

    fn quantifier(&self, v: usize) -> Option<Quantifier> {
        self.below.quantifier(v)
    }

    #[tactic(auto, using(crate::proofs::Places::count_is))]
    fn clause_count(&self) -> usize {
        self.below.clause_count()
    }

    #[tactic(auto, using(crate::proofs::Places::length_is))]
    fn clause_len(&self, j: usize) -> usize {
        self.below.clause_len(j)
    }

    #[tactic(auto, using(crate::proofs::Places::literal_is))]
    fn literal(&self, j: usize, i: usize) -> u16 {
        self.card.image(self.below.literal(j, i))
    }
}

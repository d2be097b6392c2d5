// Claims of images of earlier lines.
ghost use Rattle.std.specs.Prelude.{MatchResult};
ghost use Rattle.cards.specs.Meant.{meant};
ghost use Rattle.laws.specs.Cards.{Symmetry};
ghost use Rattle.laws.specs.Checks.{FailsWith};
ghost use Rattle.laws.specs.Lines.{symmetry};
ghost use Rattle.case.specs.Answers.{refusal_number};
ghost use Rattle.case.specs.Claimed.{ClaimRight};
ghost use Rattle.case.specs.Standing.{standing};
ghost use Rattle.case.specs.Steps.{Yields, card_checks};

use super::super::refusal::Refusal;
use super::Case;
use cards::Card;
use formula::Formula;
use rules::image;
use sets::ClauseSet;
use shelf::Shelf;
use symmetry::check_symmetry;

impl<F: Formula, S: Shelf> Case<F, S> {
    // Claims the image of a line under a symmetry of the formula.
    pub fn symmetry(&mut self, line: usize, card: Card) -> Result<usize, Refusal>
        ensures { ClaimRight (standing F.meaning S.meaning self.old) (symmetry line (meant card)) result (standing F.meaning S.meaning self.new) }
    {
        let clause = self.symmetry_clause(line, &card)?;
        self.keep(clause)
    }

    // The checks in their order, and the clause.
    fn symmetry_clause(&self, line: usize, card: &Card) -> Result<ClauseSet, Refusal>
        ensures { Yields (standing F.meaning S.meaning self.now) (symmetry line (meant card.now)) result }
    {
        self.still_open()?;
        let mut cells = [0u16; 512];
        let parent = self.fetch(line, &mut cells)?;
        self.check_card(card)?;
        Ok(image(parent, card))
    }

    // That the card is a symmetry of the formula.
    fn check_card(&self, card: &Card) -> Result<(), Refusal>
        ensures { MatchResult result (λ _. Symmetry (F.meaning self.now.formula) (meant card.now)) (λ e. FailsWith (refusal_number e) (card_checks (F.meaning self.now.formula) (meant card.now))) }
    {
        Ok(check_symmetry(&self.formula, card)?)
    }
}

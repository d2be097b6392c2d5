// Checks that several claims make.
ghost use Rattle.std.specs.Prelude.{◌≡◌, true, false, MatchResult};
ghost use Rattle.calculus.specs.Meaning.{Variable};
ghost use Rattle.case.specs.declared.refusal.Refusal.TheVariants.{Closed, Absent};

use super::super::refusal::Refusal;
use super::Case;
use formula::Formula;
use shelf::Shelf;

impl<F: Formula, S: Shelf> Case<F, S> {
    // That the case is not refuted.
    pub(crate) fn still_open(&self) -> Result<(), Refusal>
        ensures { MatchResult result (λ _. self.now.refuted ≡ false) (λ e. (self.now.refuted ≡ true) × (e ≡ Closed)) }
    {
        if self.refuted {
            return Err(Refusal::Closed);
        }
        Ok(())
    }

    // That the formula has the variable.
    pub(crate) fn variable(&self, v: usize) -> Result<(), Refusal>
        ensures { MatchResult result (λ _. Variable (F.meaning self.now.formula).n v) (λ e. (Variable (F.meaning self.now.formula).n v → ⊥) × (e ≡ Absent)) }
    {
        if v == 0 || v > self.formula.variable_count() {
            return Err(Refusal::Absent);
        }
        Ok(())
    }
}

// Claims of clauses of the formula.
ghost use Rattle.laws.specs.Lines.{axiom_line};
ghost use Rattle.case.specs.Claimed.{ClaimRight};
ghost use Rattle.case.specs.Standing.{standing};
ghost use Rattle.case.specs.Steps.{Yields};

use super::super::refusal::Refusal;
use super::Case;
use formula::Formula;
use sets::{ClauseSet, LiteralSet};
use shelf::Shelf;

impl<F: Formula, S: Shelf> Case<F, S> {
    // Claims a clause of the formula; it answers the number of the line, or why it is refused.
    pub fn axiom(&mut self, clause: usize) -> Result<usize, Refusal>
        ensures { ClaimRight (standing F.meaning S.meaning self.old) (axiom_line clause) result (standing F.meaning S.meaning self.new) }
    {
        let set = self.axiom_clause(clause)?;
        self.keep(set)
    }

    // The checks in their order, and the clause.
    fn axiom_clause(&self, clause: usize) -> Result<ClauseSet, Refusal>
        ensures { Yields (standing F.meaning S.meaning self.now) (axiom_line clause) result }
    {
        self.still_open()?;
        if clause >= self.formula.clause_count() {
            return Err(Refusal::Absent);
        }
        let literals = LiteralSet::of_clause(&self.formula, clause);
        Ok(ClauseSet::try_from(literals)?)
    }
}

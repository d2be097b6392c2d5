// Claims of reductions.
ghost use Rattle.laws.specs.Lines.{reduction};
ghost use Rattle.case.specs.Claimed.{ClaimRight};
ghost use Rattle.case.specs.Standing.{standing};
ghost use Rattle.case.specs.Steps.{Yields};

use super::super::refusal::Refusal;
use super::Case;
use formula::Formula;
use rules::{is_reducible, reduced};
use sets::ClauseSet;
use shelf::Shelf;

impl<F: Formula, S: Shelf> Case<F, S> {
    // Claims a line without its literal over a universal variable.
    pub fn reduction(&mut self, line: usize, variable: usize) -> Result<usize, Refusal>
        ensures { ClaimRight (standing F.meaning S.meaning self.old) (reduction line variable) result (standing F.meaning S.meaning self.new) }
    {
        let clause = self.reduction_clause(line, variable)?;
        self.keep(clause)
    }

    // The checks in their order, and the clause.
    fn reduction_clause(&self, line: usize, variable: usize) -> Result<ClauseSet, Refusal>
        ensures { Yields (standing F.meaning S.meaning self.now) (reduction line variable) result }
    {
        self.still_open()?;
        let mut cells = [0u16; 512];
        let parent = self.fetch(line, &mut cells)?;
        self.variable(variable)?;
        if !is_reducible(&self.formula, parent, variable) {
            return Err(Refusal::Reduction);
        }
        Ok(reduced(parent, variable))
    }
}

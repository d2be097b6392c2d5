// Claims of resolvents.
ghost use Rattle.laws.specs.Lines.{resolution};
ghost use Rattle.case.specs.Claimed.{ClaimRight};
ghost use Rattle.case.specs.Standing.{standing};
ghost use Rattle.case.specs.Steps.{Yields};

use super::super::refusal::Refusal;
use super::Case;
use formula::Formula;
use rules::{is_resolvable, resolvent};
use sets::ClauseSet;
use shelf::Shelf;

impl<F: Formula, S: Shelf> Case<F, S> {
    // Claims the resolvent of two lines upon a variable, which the first holds and the second holds negated.
    pub fn resolution(
        &mut self,
        first: usize,
        second: usize,
        variable: usize,
    ) -> Result<usize, Refusal>
        ensures { ClaimRight (standing F.meaning S.meaning self.old) (resolution first second variable) result (standing F.meaning S.meaning self.new) }
    {
        let clause = self.resolution_clause(first, second, variable)?;
        self.keep(clause)
    }

    // The checks in their order, and the clause.
    fn resolution_clause(
        &self,
        first: usize,
        second: usize,
        variable: usize,
    ) -> Result<ClauseSet, Refusal>
        ensures { Yields (standing F.meaning S.meaning self.now) (resolution first second variable) result }
    {
        self.still_open()?;
        let mut first_cells = [0u16; 512];
        let p = self.fetch(first, &mut first_cells)?;
        let mut second_cells = [0u16; 512];
        let q = self.fetch(second, &mut second_cells)?;
        self.variable(variable)?;
        if !is_resolvable(&self.formula, p, q, variable) {
            return Err(Refusal::Pivot);
        }
        Ok(ClauseSet::try_from(resolvent(p, q, variable))?)
    }
}

// The six questions, answered from a table's cells.
ghost use Rattle.std.specs.Prelude.{◌≡◌, ◌<◌, ◌≤◌, ◌∷◌, [], length, slice_index, MatchOption};
ghost use Rattle.calculus.specs.Meaning.{clause_of};
ghost use Rattle.text.specs.Cells.{cut};
ghost use Rattle.text.specs.Tables.{formula_in, formula_formed};

use super::Table;
use formula::{Formula, Quantifier};
use std::ops::Range;

// A table has no model: as a trait's value it would be any meaning, and the law below holds of those alone that a table's fields give.
impl<'a> Formula for Table<'a> {
    ghost meaning = { formula_in };

    ghost formed = { formula_formed };

    fn variable_count(&self) -> usize {
        self.prefix.n
    }

    fn level(&self, v: usize) -> u16 {
        self.prefix.level(v)
    }

    fn quantifier(&self, v: usize) -> Option<Quantifier> {
        self.prefix.quantifier(v)
    }

    fn clause_count(&self) -> usize {
        self.count
    }

    fn clause_len(&self, j: usize) -> usize {
        self.clause(j).len()
    }

    fn literal(&self, j: usize, i: usize) -> u16 {
        self.clause(j).get(i).copied().unwrap_or(0)
    }
}

impl<'a> Table<'a> {
    // The codes of clause j; none where there is no such clause.
    fn clause(&self, j: usize) -> &[u16]
        ensures { result.now ≡ clause_of (formula_in self.now) j }
    {
        match self.span(j) {
            Some(span) => &self.literals[span],
            None => &[],
        }
    }

    // Where clause j lies; None where there is no such clause.
    fn span(&self, j: usize) -> Option<Range<usize>>
        ensures { MatchOption result (clause_of (formula_in self.now) j ≡ []) (λ r. (r.start ≤ r.end) × (r.end ≤ length self.now.literals.now) × (clause_of (formula_in self.now) j ≡ cut self.now.literals.now r.start r.end)) }
    {
        if j < self.count {
            Some(self.start(j)..usize::from(self.ends[j]))
        } else {
            None
        }
    }

    // Where clause j starts: at the end before it, the first at 0. (`checked_sub` and `map_or` would say the same in more words.)
    fn start(&self, j: usize) -> usize
        requires { j < self.now.count }
        ensures { result ≡ slice_index (0 ∷ self.now.ends.now) j }
    {
        if j == 0 {
            0
        } else {
            usize::from(self.ends[j - 1])
        }
    }
}

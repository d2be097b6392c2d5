// The tidy text of a formula.
ghost use Rattle.writer.specs.Written.{written};

use crate::clauses::put_clauses;
use crate::levels::put_blocks;
use crate::pen::Pen;
use crate::writable::Writable;
use formula::Formula;

// A lent formula, to be written as its tidy text.
#[derive_where(Clone, Copy)]
pub(crate) struct Tidy<'f, F>(pub(crate) &'f F);

impl<'f, F: Formula> Writable for Tidy<'f, F> {
    ghost bytes = { λ t. written (F.Formula.meaning t.0.now) };

    // The header p cnf n m, a line for each level, and a line for each clause.
    fn put(&self, pen: &mut Pen<'_>) {
        pen.put_all(b"p cnf ");
        pen.put_number(self.0.variable_count());
        pen.put_space();
        pen.put_number(self.0.clause_count());
        pen.put(b'\n');
        put_blocks(pen, self.0);
        put_clauses(pen, self.0);
    }
}

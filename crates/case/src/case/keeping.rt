// A clause kept as the next line.
ghost use Rattle.std.specs.Prelude.{◌≡◌, false};
ghost use Rattle.laws.specs.Claims.{is_empty};
ghost use Rattle.sets.specs.Members.{members};
ghost use Rattle.shelf.specs.Shelved.{Keeps};
ghost use Rattle.case.specs.Standing.{standing};
ghost use Rattle.case.specs.Steps.{KeepsLine};

use super::super::refusal::Refusal;
use super::Case;
use formula::Formula;
use sets::ClauseSet;
use shelf::{Clause, Shelf, ShelfFault};

impl<F: Formula, S: Shelf> Case<F, S> {
    // Keeps a clause as the next line; the empty clause refutes.
    pub(crate) fn keep(&mut self, clause: ClauseSet) -> Result<usize, Refusal>
        requires { self.old.refuted ≡ false }
        ensures { KeepsLine (standing F.meaning S.meaning self.old) (members clause.literals.words) result (standing F.meaning S.meaning self.new) }
    {
        let line = shelve(&mut self.shelf, &clause)?;
        self.refuted = is_empty(&clause);
        Ok(line)
    }
}

// Puts a clause on a shelf. Its codes are written into cells of this function, with their count beside them, since nothing may be allocated.
fn shelve<S: Shelf>(shelf: &mut S, clause: &ClauseSet) -> Result<usize, ShelfFault>
    ensures { Keeps (S.meaning shelf.old) (members clause.now.literals.words) result (S.meaning shelf.new) }
{
    let mut cells = [0u16; 512];
    let len = clause.literals().codes(&mut cells);
    shelf.keep(Clause::front(&cells[..len]))
}

// Whether a clause has no literal.
fn is_empty(clause: &ClauseSet) -> bool
    ensures { result ≡ is_empty (members clause.now.literals.words) }
{
    clause.literals().is_empty()
}

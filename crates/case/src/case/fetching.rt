// The clause of an earlier line.
ghost use Rattle.case.specs.Steps.{Fetched};

use super::super::refusal::Refusal;
use super::Case;
use formula::Formula;
use shelf::{Clause, Shelf};

impl<F: Formula, S: Shelf> Case<F, S> {
    // The clause of a line, which is copied to the place.
    pub(crate) fn fetch<'c>(
        &self,
        line: usize,
        place: &'c mut [u16; 512],
    ) -> Result<Clause<'c>, Refusal>
        ensures { Fetched (S.meaning self.now.shelf).kept line result }
    {
        let len = self.shelf.look(line, place)?;
        Ok(Clause::front(&place[..len]))
    }
}

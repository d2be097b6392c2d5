// The row shelf as a shelf.
ghost use Rattle.rows.specs.Held.{shelf_in, shelf_sound};

use super::RowShelf;
use shelf::{Clause, Shelf, ShelfFault};

impl<'a> Shelf for RowShelf<'a> {
    ghost meaning = { shelf_in };

    ghost sound = { shelf_sound };

    fn clear(&mut self) {
        self.count = 0;
    }

    fn keep(&mut self, clause: Clause<'_>) -> Result<usize, ShelfFault> {
        if !self.has_room(clause.codes()) {
            return Err(ShelfFault::Full);
        }
        Ok(self.push(clause))
    }

    fn look(&self, line: usize, place: &mut [u16; 512]) -> Result<usize, ShelfFault> {
        let literals = self.literals(line).ok_or(ShelfFault::Absent)?;
        Ok(literals.codes(place))
    }

    #[tactic(auto, using(crate::proofs::Lines::counted))]
    fn count(&self) -> usize {
        self.count
    }
}

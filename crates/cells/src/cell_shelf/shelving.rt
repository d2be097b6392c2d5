// The calls of a shelf, on lent cells.
ghost use Rattle.cells.specs.Bounds.{meant_sound};
ghost use Rattle.cells.specs.Meant.{meant};

use super::CellShelf;
use shelf::{Clause, Shelf, ShelfFault};

impl<'a> Shelf for CellShelf<'a> {
    ghost meaning = { meant };

    ghost sound = { meant_sound };

    fn clear(&mut self) {
        self.used = 0;
        self.count = 0;
    }

    fn keep(&mut self, clause: Clause<'_>) -> Result<usize, ShelfFault> {
        if !self.has_room(clause.codes()) {
            return Err(ShelfFault::Full);
        }
        Ok(self.push(clause))
    }

    fn look(&self, line: usize, place: &mut [u16; 512]) -> Result<usize, ShelfFault> {
        let codes = self.line(line).ok_or(ShelfFault::Absent)?;
        place[..codes.len()].copy_from_slice(codes);
        Ok(codes.len())
    }

    fn count(&self) -> usize {
        self.count
    }
}

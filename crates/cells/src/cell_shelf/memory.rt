// A shelf laid over lent memory, and what it has space for.
ghost use Rattle.std.specs.Prelude.{◌≡◌, true, ◌↔◌, [], length};
ghost use Rattle.laws.specs.Store.{Space};
ghost use Rattle.shelf.specs.Stores.{store_of};
ghost use Rattle.cells.specs.Meant.{meant, cell_store};

use super::CellShelf;
use shelf::Store;

impl<'a> CellShelf<'a> {
    // The empty shelf over the cells, whatever they hold and however many there are.
    pub fn over(cells: &'a mut [u16]) -> CellShelf<'a>
        ensures empty { meant result ≡ record { store = cell_store (length cells.old); kept = [] } }
        ensures untouched { result.cells.now ≡ cells.old }
    {
        CellShelf {
            cells,
            used: 0,
            count: 0,
            starts: [0; 8192],
        }
    }

    // Whether there is space for so many clauses of so many literals each.
    pub fn has_space(&self, clauses: usize, literals: usize) -> bool
        ensures { (result ≡ true) ↔ Space (meant self.now).store clauses literals }
    {
        self.store().has_space(clauses, literals)
    }

    // How much the cells can bear: a clause takes one, and each of its literals one more.
    pub(super) fn store(&self) -> Store
        ensures { store_of result ≡ (meant self.now).store }
    {
        Store {
            capacity: self.cells.len(),
            base: 1,
            rate: 1,
        }
    }
}

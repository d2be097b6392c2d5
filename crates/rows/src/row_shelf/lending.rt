// A row shelf made of lent words, and how much it can bear.
ghost use Rattle.std.specs.Prelude.{◌≡◌, ◌/◌, true, ◌↔◌, [], length};
ghost use Rattle.laws.specs.Store.{Space};
ghost use Rattle.shelf.specs.Stores.{store_of};
ghost use Rattle.rows.specs.Held.{shelf_in};
ghost use Rattle.rows.specs.Rows.{row_store};

use super::RowShelf;
use shelf::Store;

impl<'a> RowShelf<'a> {
    // An empty shelf over words that hold anything, with as many rows as they have whole ones. The words stay as they are.
    pub fn over(words: &'a mut [u64]) -> RowShelf<'a>
        ensures meaning { shelf_in result ≡ record { store = row_store (length words.old / 16); kept = [] } }
        ensures words { result.words.now ≡ words.old }
    {
        RowShelf { words, count: 0 }
    }

    // Whether there is space for so many clauses of so many literals each.
    pub fn has_space(&self, clauses: usize, literals: usize) -> bool
        ensures { (result ≡ true) ↔ Space (shelf_in self.now).store clauses literals }
    {
        self.store().has_space(clauses, literals)
    }

    // How much the rows can bear: a clause takes one, whatever its length.
    pub(super) fn store(&self) -> Store
        ensures { store_of result ≡ (shelf_in self.now).store }
    {
        Store {
            capacity: self.rows().len(),
            base: 1,
            rate: 0,
        }
    }
}

// A shelf keeps clauses, each under the number of its line. Code above is proved once, for every implementation.
#![tactic(auto)]

ghost use Rattle.std.specs.Prelude.{◌≡◌, [], length};
ghost use Rattle.shelf.specs.Shelved.{Shelved, Sound, holding, Keeps, Looks};
ghost use Rattle.shelf.specs.Space.{SpaceSuffices};

mod clause;
mod fault;
mod store;

pub use clause::{Clause, NoClause};
pub use fault::ShelfFault;
pub use store::Store;

pub trait Shelf {
    // what the shelf holds, and what it can bear
    ghost meaning: { Self → Shelved };

    // each implementation shows that it keeps to its bounds
    ghost sound: { (s : Self) → Sound (meaning s) };

    // Takes all clauses off the shelf.
    fn clear(&mut self)
        ensures { meaning self.new ≡ holding (meaning self.old) [] };

    // Keeps a clause as the next line, and answers its number; full where there is no room for it.
    fn keep(&mut self, clause: Clause<'_>) -> Result<usize, ShelfFault>
        ensures { Keeps (meaning self.old) clause.entry.codes.now result (meaning self.new) };

    // Copies a line's clause to the front of the place, and answers how many literals it has; absent where there is no such line.
    fn look(&self, line: usize, place: &mut [u16; 512]) -> Result<usize, ShelfFault>
        ensures { Looks (meaning self.now) line result place.old place.new };

    // How many clauses are kept.
    fn count(&self) -> usize
        ensures { result ≡ length (meaning self.now).kept };
}

// A shelf that is lent is a shelf.
impl<'s, S: Shelf> Shelf for &'s mut S {
    ghost meaning = { λ s. S.Shelf.meaning s.now };

    ghost sound = { λ s. S.Shelf.sound s.now };

    fn clear(&mut self) {
        (**self).clear()
    }

    fn keep(&mut self, clause: Clause<'_>) -> Result<usize, ShelfFault> {
        (**self).keep(clause)
    }

    fn look(&self, line: usize, place: &mut [u16; 512]) -> Result<usize, ShelfFault> {
        (**self).look(line, place)
    }

    fn count(&self) -> usize {
        (**self).count()
    }
}

// From an empty shelf, clauses that there is space for are all kept, as lines 0, 1 and so on.
pub fn clauses_with_space_are_kept()
    ensures { SpaceSuffices }
{}

// A clause written past the lines that are kept, and then counted as one of them.
ghost use Rattle.std.specs.Prelude.{◌≡◌, ◌+◌, ◌≤◌, true, ◌↔◌, [], ◌∷◌, ◌++◌, length, take};
ghost use Rattle.laws.specs.Store.{Room};
ghost use Rattle.shelf.specs.Shelved.{holding};
ghost use Rattle.cells.specs.Layout.{Lies};
ghost use Rattle.cells.specs.Meant.{meant};

use super::CellShelf;
use shelf::Clause;

impl<'a> CellShelf<'a> {
    // Whether there is room for a clause.
    #[tactic(auto, using(shelf::proofs::Rooms::room_is, crate::proofs::Rooms::weighs))]
    pub(super) fn has_room(&self, codes: &[u16]) -> bool
        ensures { (result ≡ true) ↔ Room (meant self.now).store (meant self.now).kept codes.now }
    {
        self.store().has_room(self.count, self.used, codes.len())
    }

    // Keeps a clause that there is room for, and answers its line.
    pub(super) fn push(&mut self, clause: Clause<'_>) -> usize
        requires { Room (meant self.old).store (meant self.old).kept clause.codes.now }
        ensures line { result ≡ length (meant self.old).kept }
        ensures kept { meant self.new ≡ holding (meant self.old) ((meant self.old).kept ++ (clause.entry.codes.now ∷ [])) }
    {
        let codes = clause.codes();
        let line = self.count;
        let at = self.used;
        let cells = &mut *self.cells;
        write_line(cells, at, codes);
        self.starts[line] = at;
        self.used = at + 1 + codes.len();
        self.count = line + 1;
        line
    }
}

// Writes a line at a place: its length, then its codes.
#[tactic(auto, using(crate::proofs::Writing::written_lies))]
fn write_line(cells: &mut [u16], at: usize, codes: &[u16])
    requires short { length codes.now ≤ 512 }
    requires free { at + (1 + length codes.now) ≤ length cells.old }
    ensures before { take at cells.new ≡ take at cells.old }
    ensures lies { Lies cells.new at codes.now }
{
    cells[at] = codes.len() as u16;
    cells[at + 1..at + 1 + codes.len()].copy_from_slice(codes);
}

// One row more.
ghost use Rattle.std.specs.Prelude.{◌≡◌, true, ◌↔◌, [], ◌∷◌, ◌++◌, length};
ghost use Rattle.calculus.specs.Literals.{Tautological};
ghost use Rattle.laws.specs.Store.{Room};
ghost use Rattle.shelf.specs.Shelved.{holding};
ghost use Rattle.sets.specs.Members.{members};
ghost use Rattle.rows.specs.Held.{shelf_in};

use super::RowShelf;
use sets::LiteralSet;
use shelf::Clause;

impl<'a> RowShelf<'a> {
    // Whether there is room for a clause.
    #[tactic(auto, using(shelf::proofs::Rooms::room_is, crate::proofs::Lines::counted, crate::proofs::Lines::weighs))]
    pub(super) fn has_room(&self, codes: &[u16]) -> bool
        ensures { (result ≡ true) ↔ Room (shelf_in self.now).store (shelf_in self.now).kept codes.now }
    {
        self.store().has_room(self.count, self.count, codes.len())
    }

    // Keeps a clause that there is room for in the next row, and answers its line.
    #[tactic(auto, using(crate::proofs::Lines::counted, crate::proofs::Lines::weighs, crate::proofs::Lines::length_written, crate::proofs::Lines::row_more, crate::proofs::Lines::proper_more))]
    pub(super) fn push(&mut self, clause: Clause<'_>) -> usize
        requires { Room (shelf_in self.old).store (shelf_in self.old).kept clause.codes.now }
        ensures line { result ≡ length (shelf_in self.old).kept }
        ensures kept { shelf_in self.new ≡ holding (shelf_in self.old) ((shelf_in self.old).kept ++ (clause.entry.codes.now ∷ [])) }
    {
        let line = self.count;
        let row = set_of(clause).words();
        // By words, since the contract of `as_chunks_mut` does not say what the slice ends as.
        let at = 16 * line;
        self.words[at..at + 16].copy_from_slice(&row);
        self.count = line + 1;
        line
    }
}

// The set of a clause's literals, of which none comes with its negation.
fn set_of(clause: Clause<'_>) -> LiteralSet
    ensures codes { members result.words ≡ clause.entry.codes.now }
    ensures proper { Tautological (members result.words) → ⊥ }
{
    LiteralSet::of(clause.codes()).unwrap()
}

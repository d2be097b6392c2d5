// The clauses in the rows.
ghost use Rattle.std.specs.Prelude.{◌≡◌, ◌/◌, ◌<◌, ◌≤◌, length, MatchOption};
ghost use Rattle.laws.specs.Derivations.{line_of};
ghost use Rattle.sets.specs.Members.{members};
ghost use Rattle.rows.specs.Held.{shelf_in};
ghost use Rattle.rows.specs.Rows.{rows_in};

use super::RowShelf;
use sets::LiteralSet;

impl<'a> RowShelf<'a> {
    // The whole rows of the words.
    pub(super) fn rows(&self) -> &[[u64; 16]]
        ensures rows { result.now ≡ rows_in self.now.words.now }
        ensures len { length result.now ≡ length self.now.words.now / 16 }
    {
        self.words.as_chunks::<16>().0
    }

    // The literals of a line; none where it is not kept.
    pub(super) fn literals(&self, line: usize) -> Option<LiteralSet>
        ensures { MatchOption result (length (shelf_in self.now).kept ≤ line) (λ set. (line < length (shelf_in self.now).kept) × (members set.words ≡ line_of (shelf_in self.now).kept line)) }
    {
        let row = *self.rows()[..self.count].get(line)?;
        Some(LiteralSet::from(row))
    }
}

// A line found by its number.
ghost use Rattle.std.specs.Prelude.{◌≡◌, ◌<◌, ◌≤◌, length, MatchOption};
ghost use Rattle.laws.specs.Derivations.{line_of};
ghost use Rattle.cells.specs.Layout.{Lies};
ghost use Rattle.cells.specs.Meant.{meant};

use super::CellShelf;

impl<'a> CellShelf<'a> {
    // The codes of a line; none where it is not kept.
    pub(super) fn line(&self, line: usize) -> Option<&[u16]>
        ensures { MatchOption result (length (meant self.now).kept ≤ line) (λ codes. (line < length (meant self.now).kept) × (codes.now ≡ line_of (meant self.now).kept line) × (length codes.now ≤ 512)) }
    {
        let at = self.start(line)?;
        let len = usize::from(self.cells[at]);
        Some(&self.cells[at + 1..at + 1 + len])
    }

    // Where a line begins, from the index; none where it is not kept.
    #[tactic(auto, using(crate::proofs::Places::index_length, crate::proofs::Places::index_lies))]
    fn start(&self, line: usize) -> Option<usize>
        ensures { MatchOption result (length (meant self.now).kept ≤ line) (λ at. (line < length (meant self.now).kept) × Lies self.now.cells.now at (line_of (meant self.now).kept line)) }
    {
        self.starts[..self.count].get(line).copied()
    }
}

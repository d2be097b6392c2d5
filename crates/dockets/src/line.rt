// A line of a docket.
ghost use Rattle.std.specs.Prelude.{◌≡◌, length};
ghost use Rattle.dockets.specs.Encoding.{encoded};
ghost use Rattle.dockets.specs.Lines.{entry_for};

use crate::cursor::Cursor;

// Clause j; lines p and q and the variable v; line p and the variable v; line p and the place of its card, which is the offset of its pair count.
#[derive(Clone, Copy, Debug, PartialEq, Eq)]
pub enum Line {
    Axiom(u16),
    Resolution(u16, u16, u16),
    Reduction(u16, u16),
    Symmetry(u16, usize),
}

impl Line {
    // How many bytes a line of a docket is written as.
    #[tactic(auto, using(crate::proofs::FieldBytes::length_pairs_at), unfolding(crate::specs::Encoding::encoded))]
    pub fn byte_count(self, docket: &[u8]) -> usize
        ensures { result ≡ length (encoded (entry_for docket.now self)) }
    {
        match self {
            Line::Axiom(_) => 3,
            Line::Resolution(..) => 7,
            Line::Reduction(..) => 5,
            Line::Symmetry(_, place) => {
                5 + 4 * usize::from(Cursor::new(docket, place).field_at(0))
            }
        }
    }
}

// Claims read off a docket.
ghost use Rattle.examining.specs.Steps.{ClaimOf};

use case::Claim;
use dockets::{Line, LineFault, card_at};

// The claim of a line of a docket; the card of a symmetry line is read with it.
pub(crate) fn claim_of(docket: &[u8], line: Line) -> Result<Claim, LineFault>
    ensures { ClaimOf docket.now line result }
{
    match line {
        Line::Axiom(j) => Ok(Claim::Axiom(usize::from(j))),
        Line::Resolution(p, q, v) => Ok(Claim::Resolution(
            usize::from(p),
            usize::from(q),
            usize::from(v),
        )),
        Line::Reduction(p, v) => Ok(Claim::Reduction(usize::from(p), usize::from(v))),
        Line::Symmetry(p, place) => Ok(Claim::Symmetry(usize::from(p), card_at(docket, place)?)),
    }
}

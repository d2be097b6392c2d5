// The line at an offset of a docket.
ghost use Rattle.std.specs.Prelude.{◌≡◌, MatchResult};
ghost use Rattle.dockets.specs.Heads.{HeadTaken, head_checks};
ghost use Rattle.dockets.specs.Lines.{CardBehind, entry_for};
ghost use Rattle.dockets.specs.Reading.{FailsAt, Hold, entry_at, line_checks};

use crate::card::card_at;
use crate::cursor::Cursor;
use crate::kind::Kind;
use crate::{Line, LineFault};

// The line whose map byte stands at an offset.
pub fn decode(docket: &[u8], at: usize) -> Result<Line, LineFault>
    ensures { MatchResult result (λ line. Hold (line_checks docket.now at) × (entry_for docket.now line ≡ entry_at docket.now at) × CardBehind at line) (λ e. FailsAt e (line_checks docket.now at)) }
{
    let mut cursor = Cursor::new(docket, at);
    let line = head(&mut cursor)?;
    if let Line::Symmetry(_, place) = line {
        card_at(docket, place)?;
    }
    Ok(line)
}

// Takes the fields of a line, but of a card only its place.
// Inlined, so that a cursor is not laid out in memory for the call.
#[inline(always)]
pub(crate) fn head(cursor: &mut Cursor) -> Result<Line, LineFault>
    ensures same { cursor.new.docket.now ≡ cursor.old.docket.now }
    ensures taken { MatchResult result (λ line. HeadTaken cursor.old.docket.now cursor.old.at line cursor.new.at) (λ e. FailsAt e (head_checks cursor.old.docket.now cursor.old.at)) }
{
    match cursor.kind()? {
        Kind::Axiom => Ok(Line::Axiom(cursor.field()?)),
        Kind::Resolution => {
            let (p, q, v) = (cursor.field()?, cursor.field()?, cursor.field()?);
            Ok(Line::Resolution(p, q, v))
        }
        Kind::Reduction => Ok(Line::Reduction(cursor.field()?, cursor.field()?)),
        Kind::Symmetry => Ok(Line::Symmetry(cursor.field()?, cursor.place())),
    }
}

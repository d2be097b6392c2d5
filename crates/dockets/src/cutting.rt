// The part of a docket that is the line at an offset.
ghost use Rattle.std.specs.Prelude.{◌≡◌, take, drop, MatchResult};
ghost use Rattle.dockets.specs.Parts.{part_checks};
ghost use Rattle.dockets.specs.Reading.{FailsAt, Hold, length_at};

use crate::cursor::Cursor;
use crate::decoding::head;
use crate::{Line, LineFault, Part};

// The line at an offset; of its card only the count is judged.
pub fn part<'a>(docket: &'a [u8], at: usize) -> Result<Part<'a>, LineFault>
    ensures { MatchResult result (λ part. Hold (part_checks docket.now at) × (part.place ≡ at) × (part.bytes.now ≡ take (length_at docket.now at) (drop at docket.now))) (λ e. FailsAt e (part_checks docket.now at)) }
{
    let mut cursor = Cursor::new(docket, at);
    if let Line::Symmetry(..) = head(&mut cursor)? {
        let count = cursor.count()?;
        cursor.ask(2 * count)?;
    }
    Ok(Part {
        place: at,
        bytes: &docket[at..cursor.place()],
    })
}

// A text mirrored: read into lent cells, and the image of its formula under the negation of every variable, or the report of its first
// fault, written into a lent buffer.
#![tactic(auto)]

ghost use Rattle.reading.specs.Stands.{sizes};
ghost use Rattle.tidying.specs.Tidied.{Room};
ghost use Rattle.mirroring.specs.Mirrored.{Mirrored};
ghost use Rattle.mirroring.specs.Negation.{negated};

mod image;
mod negation;

use formula::Formula;
use image::write_image;
use tidying::{Change, write_changed};
use writer::WriteFault;

// Writes the formula of a text with every literal negated, or the line that reports the text's first fault; answers how long that is. A
// buffer of 90,127 bytes is long enough for every text.
pub fn mirror(
    text: &[u8],
    literals: &mut [u16],
    ends: &mut [u16],
    out: &mut [u8],
) -> Result<usize, WriteFault>
    ensures mirrors { Mirrored (sizes literals.old ends.old) text.now result out.old out.new literals.new ends.new }
    ensures room { Room out.old result }
{
    write_changed::<Negated>(text, literals, ends, out)
}

// The formula is written with every literal negated.
pub struct Negated;

impl Change for Negated {
    ghost change = { negated };

    #[tactic(auto, using(crate::proofs::Negating::negated_short))]
    fn write<F: Formula>(f: &F, out: &mut [u8]) -> Result<usize, WriteFault> {
        write_image(f, out)
    }
}

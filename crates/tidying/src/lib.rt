// A text tidied: read into lent cells, and its formula, or the report of its first fault, written into a lent buffer.
#![tactic(auto)]

ghost use Rattle.reading.specs.Stands.{sizes};
ghost use Rattle.tidying.specs.Tidied.{Tidied, Room};

mod change;

pub use change::{Change, write_changed};
use formula::Formula;
pub use writer::WriteFault;

// Writes the formula of a text, or the line that reports the text's first fault; answers how long that is. A buffer of 90,127 bytes
// is long enough for every text.
pub fn tidy(
    text: &[u8],
    literals: &mut [u16],
    ends: &mut [u16],
    out: &mut [u8],
) -> Result<usize, WriteFault>
    ensures tidies { Tidied (sizes literals.old ends.old) text.now result out.old out.new literals.new ends.new }
    ensures room { Room out.old result }
{
    write_changed::<Unchanged>(text, literals, ends, out)
}

// The formula is written as it is.
pub struct Unchanged;

impl Change for Unchanged {
    ghost change = { λ m. m };

    #[tactic(auto, using(writer::proofs::Lengths::written_short))]
    fn write<F: Formula>(f: &F, out: &mut [u8]) -> Result<usize, WriteFault> {
        writer::write(f, out)
    }
}

// A text read into lent cells, and what is then written of it into a lent buffer.
ghost use Rattle.std.specs.Prelude.{◌≡◌};
ghost use Rattle.calculus.specs.Meaning.{Meaning};
ghost use Rattle.reading.specs.Stands.{sizes};
ghost use Rattle.tidying.specs.Tidied.{Said, Room};
ghost use Rattle.writer.specs.Back.{FitsLimits};
ghost use Rattle.writer.specs.Into.{answer, filled};
ghost use Rattle.writer.specs.Written.{written};

use formula::Formula;
use text::Table;
use writer::WriteFault;

// How a formula is changed before it is written.
pub trait Change {
    // what it becomes
    ghost change: { Meaning → Meaning };

    // Writes the changed formula into a buffer.
    fn write<F: Formula>(f: &F, out: &mut [u8]) -> Result<usize, WriteFault>
        ensures answers { result ≡ answer (written (change (F.meaning f.now))) out.old }
        ensures holds { out.new ≡ filled (written (change (F.meaning f.now))) out.old }
        ensures room { FitsLimits (F.meaning f.now) → Room out.old result };
}

// Writes the changed formula of a text, or the line that reports the text's first fault; answers how long that is. A buffer of 90,127 bytes
// is long enough for every text.
#[tactic(auto, using(crate::proofs::Outcomes::formula_is_said, crate::proofs::Outcomes::read_within, crate::proofs::Outcomes::refusal_is_said))]
pub fn write_changed<C: Change>(
    text: &[u8],
    literals: &mut [u16],
    ends: &mut [u16],
    out: &mut [u8],
) -> Result<usize, WriteFault>
    ensures says { Said C.change (sizes literals.old ends.old) text.now result out.old out.new literals.new ends.new }
    ensures room { Room out.old result }
{
    match text::read(text, literals, ends) {
        Ok(outline) => C::write(&Table::over(outline, literals, ends), out),
        Err(fault) => writer::write_refusal(fault, out),
    }
}

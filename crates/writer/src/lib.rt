// Formulas written out as tidy text, into a lent buffer.
#![tactic(auto)]

ghost use Rattle.std.specs.Prelude.{◌≡◌};
ghost use Rattle.writer.specs.Back.{ReadsBack, WrittenReadsBack};
ghost use Rattle.writer.specs.Examples.{Examples};
ghost use Rattle.writer.specs.Into.{answer, filled};
ghost use Rattle.writer.specs.Short.{TidyTextIsShort};
ghost use Rattle.writer.specs.Written.{written, refusal_line};

mod clauses;
mod fault;
mod levels;
pub mod pen;
mod refusal;
mod tidy;
mod writable;

pub use fault::WriteFault;
use formula::Formula;
use grammar::TextFault;
pub use refusal::rule_number;
use tidy::Tidy;
pub use writable::{Writable, count, write_into};

// Writes the text of a formula into a buffer; answers how long it is. A buffer that is too short stays as it was.
#[tactic(auto, using(crate::proofs::Roundtrip::reads_back))]
pub fn write<F: Formula>(f: &F, out: &mut [u8]) -> Result<usize, WriteFault>
    ensures answers { result ≡ answer (written (F.meaning f.now)) out.old }
    ensures holds { out.new ≡ filled (written (F.meaning f.now)) out.old }
    ensures reads_back { ReadsBack result out.new (F.meaning f.now) }
{
    write_into(&Tidy(f), out)
}

// Writes the line that reports the fault of a text into a buffer; answers how long it is. A buffer that is too short stays as it was.
pub fn write_refusal(fault: TextFault, out: &mut [u8]) -> Result<usize, WriteFault>
    ensures answers { result ≡ answer (refusal_line fault) out.old }
    ensures holds { out.new ≡ filled (refusal_line fault) out.old }
{
    write_into(&fault, out)
}

// What is written of a formula reads back as that formula.
pub fn what_is_written_reads_back()
    ensures { WrittenReadsBack }
{}

// A small formula and a fault are written as they should be.
pub fn examples_stand()
    ensures { Examples }
{}

// The text of a formula within the limits takes at most 90,127 bytes.
pub fn a_tidy_text_is_short()
    ensures { TidyTextIsShort }
{}

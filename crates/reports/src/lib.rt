// Reports: what a check comes to, written as one line into a lent buffer.
#![tactic(auto)]

ghost use Rattle.std.specs.Prelude.{◌≡◌};
ghost use Rattle.writer.specs.Into.{answer, filled};
ghost use Rattle.reports.specs.Examples.{Examples, TextFaultsAgree};
ghost use Rattle.reports.specs.Lines.{report_line};
ghost use Rattle.reports.specs.Short.{Room, ReportIsShort};

mod numbers;
mod putting;
mod report;

pub use report::Report;
use writer::{WriteFault, write_into};

// Writes the line of a report into a buffer; answers how long it is. A buffer that is too short stays as it was; one of 76 bytes is
// long enough for every report.
pub fn write_report(report: Report, out: &mut [u8]) -> Result<usize, WriteFault>
    ensures answers { result ≡ answer (report_line report) out.old }
    ensures holds { out.new ≡ filled (report_line report) out.old }
    ensures room { Room out.old result }
{
    write_into(&report, out)
}

// The line of a report whose numbers 64 bits hold takes at most 76 bytes.
pub fn a_report_is_short()
    ensures { ReportIsShort }
{}

// The fault of a text is reported by the line that the writer writes for it.
pub fn text_faults_agree()
    ensures { TextFaultsAgree }
{}

// Some reports are written as they should be, and one takes 76 bytes.
pub fn examples_stand()
    ensures { Examples }
{}

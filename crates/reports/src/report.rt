// What a check comes to, as it is reported.
ghost use Rattle.reports.specs.Lines.{report_line};
ghost use Rattle.reports.specs.Short.{InRange};

use crate::numbers::{fault_byte, fault_lines, fault_number, fault_word};
use crate::putting::{put_open, put_refused, put_refuted};
use faults::ReportFault;
use writer::Writable;
use writer::pen::Pen;

// The line that is the empty clause, and how many lines there are; how many lines there are, none of them the empty clause; a fault;
// a file that is longer than what is read.
#[derive(Clone, Copy, Debug, PartialEq, Eq)]
pub enum Report {
    Refuted { line: usize, lines: usize },
    Open(usize),
    Refused(ReportFault),
    TooLong,
}

impl Writable for Report {
    ghost bytes = { report_line };

    ghost known = { InRange };

    fn put(&self, pen: &mut Pen<'_>) {
        match *self {
            Report::Refuted { line, lines } => put_refuted(pen, line, lines),
            Report::Open(lines) => put_open(pen, lines),
            Report::Refused(fault) => {
                let (number, byte) = (fault_number(fault), fault_byte(fault));
                put_refused(pen, number, fault_word(fault), byte, fault_lines(fault));
            }
            Report::TooLong => pen.put_all(b"file too long\n"),
        }
    }
}

// The fault that is reported: that of the text, or that of the docket with the lines kept by then.
ghost use Rattle.std.specs.Prelude.{◌≡◌, Some};
ghost use Rattle.faults.specs.declared.report_fault.ReportFault.TheVariants.{Text, Docket};
ghost use Rattle.faults.specs.Printed.{report_text};

use super::docket_fault::DocketFault;
use super::placed::Placed;
use grammar::TextFault;
use std::error::Error;
use std::fmt;

// The text is no formula; or the docket has a fault, and so many lines were kept by then.
#[derive(Clone, Copy, Debug, PartialEq, Eq)]
pub enum ReportFault {
    Text(TextFault),
    Docket(DocketFault, usize),
}

impl fmt::Display for ReportFault {
    ghost output = { λ fault. Some (report_text fault) };

    fn fmt<W: fmt::Write>(&self, f: &mut fmt::Formatter<W>) -> fmt::Result {
        match self {
            ReportFault::Text(text) => write!(f, "{text}"),
            ReportFault::Docket(fault, lines) => write!(f, "{fault}, lines kept {lines}"),
        }
    }
}

impl Error for ReportFault {}

impl From<TextFault> for ReportFault {
    ghost from_gives = { λ f r. r ≡ Text f };

    fn from(fault: TextFault) -> ReportFault {
        ReportFault::Text(fault)
    }
}

// The place is the number of lines kept.
impl From<Placed<DocketFault>> for ReportFault {
    ghost from_gives = { λ p r. r ≡ Docket p.fault p.place };

    fn from(p: Placed<DocketFault>) -> ReportFault {
        ReportFault::Docket(p.fault, p.place)
    }
}

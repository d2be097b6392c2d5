// What a fault keeps, read off the layer at which it was met.
ghost use Rattle.std.specs.Prelude.{◌≡◌};
ghost use Rattle.faults.specs.Faults.{fault_number, fault_layer, fault_byte, fault_lines};
ghost use Rattle.reports.specs.Lines.{layer_word};

use faults::{DocketFault, ReportFault};

// The number of a fault.
pub(crate) fn fault_number(fault: ReportFault) -> usize
    ensures { result ≡ fault_number fault }
{
    match fault {
        ReportFault::Text(f) => f.rule.number(),
        ReportFault::Docket(DocketFault::Line(f), _) => f.rule.number(),
        ReportFault::Docket(DocketFault::Claim(refusal, _), _) => refusal.number(),
    }
}

// The word for the layer of a fault.
pub(crate) fn fault_word(fault: ReportFault) -> &'static [u8]
    ensures { result.now ≡ layer_word (fault_layer fault) }
{
    match fault {
        ReportFault::Text(_) => b"text",
        ReportFault::Docket(DocketFault::Line(_), _) => b"docket",
        ReportFault::Docket(DocketFault::Claim(_, _), _) => b"claim",
    }
}

// The byte of a fault.
pub(crate) fn fault_byte(fault: ReportFault) -> usize
    ensures { result ≡ fault_byte fault }
{
    match fault {
        ReportFault::Text(f) => f.byte,
        ReportFault::Docket(DocketFault::Line(f), _) => f.byte,
        ReportFault::Docket(DocketFault::Claim(_, byte), _) => byte,
    }
}

// The lines kept by the time of a fault.
pub(crate) fn fault_lines(fault: ReportFault) -> usize
    ensures { result ≡ fault_lines fault }
{
    match fault {
        ReportFault::Text(_) => 0,
        ReportFault::Docket(_, lines) => lines,
    }
}

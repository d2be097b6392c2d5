// The fault of a docket: that of a line's bytes, or that of its claim.
ghost use Rattle.std.specs.Prelude.{◌≡◌, Some};
ghost use Rattle.faults.specs.declared.docket_fault.DocketFault.TheVariants.{Line, Claim};
ghost use Rattle.faults.specs.Printed.{docket_text};

use super::placed::Placed;
use case::Refusal;
use dockets::LineFault;
use std::error::Error;
use std::fmt;

// The bytes are no line; or the claim is refused, and this is the offset of its map byte.
#[derive(Clone, Copy, Debug, PartialEq, Eq)]
pub enum DocketFault {
    Line(LineFault),
    Claim(Refusal, usize),
}

impl fmt::Display for DocketFault {
    ghost output = { λ fault. Some (docket_text fault) };

    fn fmt<W: fmt::Write>(&self, f: &mut fmt::Formatter<W>) -> fmt::Result {
        match self {
            DocketFault::Line(line) => write!(f, "{line}"),
            DocketFault::Claim(refusal, byte) => write!(f, "{refusal} at byte {byte}"),
        }
    }
}

impl Error for DocketFault {}

impl From<LineFault> for DocketFault {
    ghost from_gives = { λ f r. r ≡ Line f };

    fn from(fault: LineFault) -> DocketFault {
        DocketFault::Line(fault)
    }
}

// The place is the offset of the line's map byte.
impl From<Placed<Refusal>> for DocketFault {
    ghost from_gives = { λ p r. r ≡ Claim p.fault p.place };

    fn from(p: Placed<Refusal>) -> DocketFault {
        DocketFault::Claim(p.fault, p.place)
    }
}

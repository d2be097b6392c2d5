// One line of a docket, decoded and claimed.
ghost use Rattle.case.specs.Standing.{standing};
ghost use Rattle.examining.specs.Steps.{Stepped};

use super::claiming::claim_of;
use case::Case;
use dockets::decode;
use faults::{DocketFault, with_place};
use formula::Formula;
use shelf::Shelf;

// The line at an offset is decoded whole, and then claimed. It answers the offset behind the line.
pub(crate) fn step<F: Formula, S: Shelf>(
    case: &mut Case<F, S>,
    docket: &[u8],
    at: usize,
) -> Result<usize, DocketFault>
    ensures { Stepped (standing F.meaning S.meaning case.old) docket.now at result (standing F.meaning S.meaning case.new) }
{
    let line = decode(docket, at)?;
    let claim = claim_of(docket, line)?;
    with_place(case.claim(claim), at)?;
    Ok(at + line.byte_count(docket))
}

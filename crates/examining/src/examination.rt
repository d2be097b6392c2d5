// A docket examined on a case.
ghost use Rattle.case.specs.Standing.{standing};
ghost use Rattle.examining.specs.Examined.{ExaminedRight};

use super::steps::step;
use case::Case;
use faults::{ReportFault, with_place};
use formula::Formula;
use shelf::Shelf;

// Claims the lines of a docket one after the other, up to the first fault, which is told the lines kept by then.
pub fn examine<F: Formula, S: Shelf>(
    case: &mut Case<F, S>,
    docket: &[u8],
) -> Result<(), ReportFault>
    ensures { ExaminedRight (standing F.meaning S.meaning case.old) docket.now result (standing F.meaning S.meaning case.new) }
{
    // an iterator over the lines would carry this same offset, and the case beside it
    let mut at = 0;
    loop {
        let kept = case.verdict().granted();
        if at >= docket.len() {
            return Ok(());
        }
        at = with_place(step(case, docket, at), kept)?;
    }
}

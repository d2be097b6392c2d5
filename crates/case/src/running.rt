// A case opened, and a list of calls made on it.
ghost use Rattle.case.specs.Promise.{RunRight};
ghost use Rattle.case.specs.Standing.{standing};

use super::call::{Call, Reply};
use super::case::Case;
use formula::Formula;
use shelf::Shelf;

// Opens a case and makes the calls, one after the other; each reply has the place of its call. Calls that have no such place are not made.
pub fn run<F: Formula, S: Shelf>(
    formula: F,
    shelf: S,
    calls: &[Call],
    replies: &mut [Reply],
) -> Case<F, S>
    ensures { RunRight (S.meaning shelf).store (F.meaning formula) calls.now replies.old replies.new (standing F.meaning S.meaning result) }
{
    let mut case = Case::open(formula, shelf);
    // a reply is written by its place: of what an iterator lends to be written, a proof knows the length only
    for (i, call) in calls.iter().enumerate().take(replies.len()) {
        replies[i] = case.answer(*call);
    }
    case
}

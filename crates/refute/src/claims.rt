// The four claims of the example, and the verdict.
use super::printing::{print_claim, print_verdict};
use cards::Card;
use case::Case;
use formula::Formula;
use shelf::Shelf;
use std::io;

// Opens a case, and makes the claims one by one.
pub(crate) fn make_claims<F: Formula + Drop, S: Shelf + Drop>(
    rt: &HostRuntime,
    formula: F,
    shelf: S,
) -> io::Result<()> {
    let mut case = Case::open(formula, shelf);
    print_claim(rt, "axiom 0", case.axiom(0))?;
    print_claim(rt, "line 0 reduced by 2", case.reduction(0, 2))?;
    let card = Card::from_pairs(&[(1, 3), (2, 5)]).unwrap();
    let image = case.symmetry(1, card);
    print_claim(rt, "image of line 1 under 1 to -1, 2 to -2", image)?;
    let resolvent = case.resolution(1, 2, 1);
    print_claim(rt, "lines 1 and 2 resolved upon 1", resolvent)?;
    print_verdict(rt, case.verdict())
}

// A case is opened on a formula and a shelf, which it gives back when it is closed.
ghost use Rattle.std.specs.Prelude.{◌≡◌, []};
ghost use Rattle.case.specs.Claimed.{After};
ghost use Rattle.case.specs.Standing.{standing, opened};

use super::Case;
use formula::Formula;
use shelf::Shelf;

impl<F: Formula, S: Shelf> Case<F, S> {
    // Opens a case: the shelf is cleared.
    pub fn open(formula: F, shelf: S) -> Case<F, S>
        ensures stands { standing F.meaning S.meaning result ≡ opened (F.meaning formula) (S.meaning shelf) }
        ensures held { result.formula ≡ formula }
        ensures reached { After [] (standing F.meaning S.meaning result) }
    {
        Case::cleared(formula, shelf)
    }

    // A case with nothing kept.
    fn cleared(formula: F, mut shelf: S) -> Case<F, S>
        ensures stands { standing F.meaning S.meaning result ≡ opened (F.meaning formula) (S.meaning shelf) }
        ensures held { result.formula ≡ formula }
    {
        shelf.clear();
        Case {
            formula,
            shelf,
            refuted: false,
        }
    }

    // Gives the formula and the shelf back.
    pub fn close(self) -> (F, S)
        ensures formula { result.0 ≡ self.formula }
        ensures shelf { result.1 ≡ self.shelf }
        ensures stood { (F.meaning result.0 ≡ (standing F.meaning S.meaning self).formula) × (S.meaning result.1 ≡ (standing F.meaning S.meaning self).shelf) }
    {
        (self.formula, self.shelf)
    }
}

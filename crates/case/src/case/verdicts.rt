// The verdict.
ghost use Rattle.std.specs.Prelude.{◌≡◌, List, true, ◌↔◌};
ghost use Rattle.laws.specs.Claims.{closed};
ghost use Rattle.laws.specs.Runs.{Call};
ghost use Rattle.laws.specs.Store.{Closed};
ghost use Rattle.case.specs.Answers.{is_refuted};
ghost use Rattle.case.specs.Claimed.{After};
ghost use Rattle.case.specs.Promise.{Says, VerdictRight};
ghost use Rattle.case.specs.Standing.{standing};

use super::super::verdict::Verdict;
use super::Case;
use formula::Formula;
use shelf::Shelf;

impl<F: Formula, S: Shelf> Case<F, S> {
    // Whether the formula is refuted, and how many claims were granted since the opening.
    pub fn verdict(&self) -> Verdict
        ensures says { Says (standing F.meaning S.meaning self.now) result }
        ensures closed { (is_refuted result ≡ true) ↔ Closed (standing F.meaning S.meaning self.now).shelf.kept }
        ensures right { (calls : List Call) → After calls (standing F.meaning S.meaning self.now) → VerdictRight calls (standing F.meaning S.meaning self.now) result }
    {
        self.tally()
    }

    // The verdict by the flag and the lines kept; and that the flag is true exactly where the empty clause is kept.
    fn tally(&self) -> Verdict
        ensures says { Says (standing F.meaning S.meaning self.now) result }
        ensures closed { (standing F.meaning S.meaning self.now).refuted ≡ closed (standing F.meaning S.meaning self.now).shelf.kept }
    {
        let granted = self.shelf.count();
        if self.refuted {
            Verdict::Refuted(granted)
        } else {
            Verdict::Open(granted)
        }
    }
}

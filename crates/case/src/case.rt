// One formula, one shelf, and whether the empty clause has been kept.
use formula::Formula;
use shelf::Shelf;
use std::marker::Model;

mod answering;
mod axioms;
mod checking;
mod fetching;
mod keeping;
mod opening;
mod reductions;
mod resolutions;
mod symmetries;
mod verdicts;

#[derive(Drop)]
pub struct Case<F: Formula, S: Shelf> {
    formula: F,
    shelf: S,
    refuted: bool,
}

// To a contract a case is its fields; where it stands follows from them (`standing`). It is refuted exactly if the empty clause is kept.
impl<F: Formula, S: Shelf> Model for Case<F, S> {
    ghost use Rattle.std.specs.Prelude.{◌≡◌};
    ghost use Rattle.laws.specs.Claims.{closed};
    ghost use Rattle.case.specs.Seen.{Seen};

    ghost Value = { Seen F S };

    ghost view = { λ c. record { formula = c.formula; shelf = c.shelf; refuted = c.refuted } };

    ghost invariant = { λ c. c.refuted ≡ closed (S.meaning c.shelf).kept };
}

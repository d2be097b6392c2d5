// Codes that are a clause as they stand, and codes that are none.
use super::Clause;
use std::error::Error;
use std::fmt;

// The codes are no clause: some variable is not above the one before, or is none from 1 to 512.
#[derive(Clone, Copy, Debug, PartialEq, Eq)]
pub struct NoClause;

impl fmt::Display for NoClause {
    ghost use Rattle.std.specs.Prelude.{Some, codes};

    ghost output = { λ _. Some (codes "no clause") };

    fn fmt<W: fmt::Write>(&self, f: &mut fmt::Formatter<W>) -> fmt::Result {
        write!(f, "no clause")
    }
}

impl Error for NoClause {}

impl<'a> TryFrom<&'a [u16]> for Clause<'a> {
    ghost use Rattle.std.specs.Prelude.{◌≡◌, MatchResult};
    ghost use Rattle.shelf.specs.Proper.{Proper};

    type Error = NoClause;

    ghost try_from_gives = { λ codes r. MatchResult r (λ c. Proper codes.now × (c.codes.now ≡ codes.now)) (λ _. Proper codes.now → ⊥) };

    #[tactic(auto, using(crate::proofs::Fronts::front_length))]
    fn try_from(codes: &'a [u16]) -> Result<Clause<'a>, NoClause> {
        let clause = Clause::front(codes);
        if clause.codes.len() == codes.len() {
            Ok(clause)
        } else {
            Err(NoClause)
        }
    }
}

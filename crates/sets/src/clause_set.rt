// Sets of literals that are clauses: no literal comes with its negation.
ghost use Rattle.std.specs.Prelude.{◌≡◌, MatchResult};
ghost use mathlib.Core.HLevel.{Π_prop, ⊥_prop};
ghost use Rattle.calculus.specs.Literals.{Tautological};
ghost use Rattle.sets.specs.Members.{members};

use super::set::LiteralSet;
use std::error::Error;
use std::fmt;

// The literals of a clause that is no tautology.
#[derive(Clone, Copy, Debug, PartialEq, Eq)]
pub struct ClauseSet {
    literals: LiteralSet,
    pub ghost proper: { Tautological (members literals.words) → ⊥ } by { Π_prop (λ t. ⊥_prop) },
}

// Some variable stands in the set with both signs.
#[derive(Clone, Copy, Debug, PartialEq, Eq)]
pub struct Tautology;

impl ClauseSet {
    // Its literals.
    pub fn literals(&self) -> LiteralSet
        ensures { result ≡ self.now.literals }
    {
        self.literals
    }
}

// The clause of a set, unless it is a tautology.
impl TryFrom<LiteralSet> for ClauseSet {
    type Error = Tautology;

    ghost try_from_gives = { λ set outcome. MatchResult outcome (λ clause. clause.literals ≡ set) (λ _. Tautological (members set.words)) };

    fn try_from(literals: LiteralSet) -> Result<ClauseSet, Tautology> {
        if literals.tautological() {
            Err(Tautology)
        } else {
            Ok(ClauseSet { literals })
        }
    }
}

impl fmt::Display for Tautology {
    ghost use Rattle.std.specs.Prelude.{Some, codes};

    ghost output = { λ _. Some (codes "tautology") };

    fn fmt<W: fmt::Write>(&self, f: &mut fmt::Formatter<W>) -> fmt::Result {
        write!(f, "tautology")
    }
}

impl Error for Tautology {}

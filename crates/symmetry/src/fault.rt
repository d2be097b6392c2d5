// Why a card is no symmetry of a formula.
ghost use Rattle.std.specs.Prelude.{Some};
ghost use Rattle.symmetry.specs.Printed.{symmetry_word};

use std::error::Error;
use std::fmt;

// It moves what is no variable, or changes a variable's level; or it takes some clause to none.
#[derive(Clone, Copy, Debug, PartialEq, Eq)]
pub enum SymmetryFault {
    Level,
    Asymmetry,
}

impl fmt::Display for SymmetryFault {
    ghost output = { λ fault. Some (symmetry_word fault) };

    fn fmt<W: fmt::Write>(&self, f: &mut fmt::Formatter<W>) -> fmt::Result {
        match self {
            SymmetryFault::Level => write!(f, "level"),
            SymmetryFault::Asymmetry => write!(f, "asymmetry"),
        }
    }
}

impl Error for SymmetryFault {}

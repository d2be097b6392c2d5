// Why a claim is refused.
ghost use Rattle.std.specs.Prelude.{◌≡◌, Some};
ghost use Rattle.case.specs.Answers.{refusal_number};
ghost use Rattle.case.specs.Printed.{refusal_word};
ghost use Rattle.case.specs.declared.refusal.Refusal.TheVariants.{Tautology};
ghost use Rattle.case.specs.Refusals.{of_shelf, of_symmetry};

use shelf::ShelfFault;
use std::error::Error;
use std::fmt;
use symmetry::SymmetryFault;

// The case is refuted already; no such clause, line or variable; the clause is tautological; the pivot does not fit; the reduction does not;
// the card changes levels; some clause's image is no clause; the shelf is full. Each has the number under which it is reported.
#[derive(Clone, Copy, Debug, PartialEq, Eq)]
pub enum Refusal {
    Closed = 31,
    Absent = 32,
    Tautology = 33,
    Pivot = 34,
    Reduction = 35,
    Level = 36,
    Asymmetry = 37,
    Full = 38,
}

impl Refusal {
    // The number under which the refusal is reported.
    pub fn number(self) -> usize
        ensures { result ≡ refusal_number self }
    {
        self as usize
    }
}

impl fmt::Display for Refusal {
    ghost output = { λ refusal. Some (refusal_word refusal) };

    fn fmt<W: fmt::Write>(&self, f: &mut fmt::Formatter<W>) -> fmt::Result {
        f.write_str(match self {
            Refusal::Closed => "closed",
            Refusal::Absent => "absent",
            Refusal::Tautology => "tautology",
            Refusal::Pivot => "pivot",
            Refusal::Reduction => "reduction",
            Refusal::Level => "level",
            Refusal::Asymmetry => "asymmetry",
            Refusal::Full => "full",
        })
    }
}

impl Error for Refusal {}

impl From<ShelfFault> for Refusal {
    ghost from_gives = { λ f r. r ≡ of_shelf f };

    fn from(fault: ShelfFault) -> Refusal {
        match fault {
            ShelfFault::Absent => Refusal::Absent,
            ShelfFault::Full => Refusal::Full,
        }
    }
}

impl From<sets::Tautology> for Refusal {
    ghost from_gives = { λ f r. r ≡ Tautology };

    fn from(_fault: sets::Tautology) -> Refusal {
        Refusal::Tautology
    }
}

impl From<SymmetryFault> for Refusal {
    ghost from_gives = { λ f r. r ≡ of_symmetry f };

    fn from(fault: SymmetryFault) -> Refusal {
        match fault {
            SymmetryFault::Level => Refusal::Level,
            SymmetryFault::Asymmetry => Refusal::Asymmetry,
        }
    }
}

// Why a shelf refuses.
use std::error::Error;
use std::fmt;

// No such line is kept, or there is no room for the clause.
#[derive(Clone, Copy, Debug, PartialEq, Eq)]
pub enum ShelfFault {
    Absent,
    Full,
}

impl fmt::Display for ShelfFault {
    ghost use Rattle.std.specs.Prelude.{Some};
    ghost use Rattle.shelf.specs.Words.{shelf_word};

    ghost output = { λ fault. Some (shelf_word fault) };

    fn fmt<W: fmt::Write>(&self, f: &mut fmt::Formatter<W>) -> fmt::Result {
        match self {
            ShelfFault::Absent => write!(f, "absent"),
            ShelfFault::Full => write!(f, "full"),
        }
    }
}

impl Error for ShelfFault {}

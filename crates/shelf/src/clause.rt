// A clause in lent cells, in the form in which a shelf keeps it.
ghost use Rattle.shelf.specs.Proper.{Proper};

mod lent;
mod listed;

pub use listed::NoClause;

// Literals of the variables 1 to 512, ascending, none with its negation.
#[derive(Clone, Copy, Debug, PartialEq, Eq)]
pub struct Clause<'a> {
    codes: &'a [u16],
    ghost proper: { ∥ Proper codes.now ∥₁ },
}

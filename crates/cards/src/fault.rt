// Why pairs make no card.
ghost use Rattle.std.specs.Prelude.{Some};
ghost use Rattle.cards.specs.Printed.{fault_text};

use std::error::Error;
use std::fmt;

// More than 512 pairs, or the first pair whose variable or image does not fit, or the first whose image is over a variable that no pair names.
#[derive(Clone, Copy, Debug, PartialEq, Eq)]
pub enum CardFault {
    Many,
    Variable(usize),
    Image(usize),
    Unnamed(usize),
}

impl fmt::Display for CardFault {
    ghost output = { λ fault. Some (fault_text fault) };

    fn fmt<W: fmt::Write>(&self, f: &mut fmt::Formatter<W>) -> fmt::Result {
        match self {
            CardFault::Many => write!(f, "more than 512 pairs"),
            CardFault::Variable(k) => write!(f, "the variable of pair {k} does not fit"),
            CardFault::Image(k) => write!(f, "the image of pair {k} does not fit"),
            CardFault::Unnamed(k) => write!(f, "no pair names the variable of image {k}"),
        }
    }
}

impl Error for CardFault {}

// A shelf over lent cells of 16 bits.
#![tactic(auto)]

mod cell_shelf;

pub use cell_shelf::CellShelf;

// The row shelf: clauses in lent words of 64 bits, sixteen to a row, one bit for each variable and sign.
#![tactic(auto)]

mod row_shelf;

pub use row_shelf::RowShelf;

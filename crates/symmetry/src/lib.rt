// Which cards are symmetries of a formula.
// The formula and the card go side by side, as callers give them: a struct of the two would be made by each public function and serve nothing else.
#![tactic(auto)]

mod admissible;
mod among;
mod carrying;
mod check;
mod fault;
mod lookup;

pub use admissible::is_admissible;
pub use among::is_among;
pub use carrying::carries;
pub use check::{check_symmetry, is_symmetry};
pub use fault::SymmetryFault;

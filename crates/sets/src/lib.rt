// Sets of literals, one bit for each variable and sign.
#![tactic(auto)]

mod clause_set;
mod set;

pub use clause_set::{ClauseSet, Tautology};
pub use set::LiteralSet;

// The rules of the calculus on clauses: the clause of each, as a set of literals, and when it may be used.
#![tactic(auto)]

mod clauses;
mod conditions;
mod literals;

pub use clauses::{image, reduced, resolvent};
pub use conditions::{is_reducible, is_resolvable};

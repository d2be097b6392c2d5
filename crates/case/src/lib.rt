// A case: one formula, one shelf, and the lines claimed on them so far.
#![tactic(auto)]

mod call;
mod case;
mod claim;
mod refusal;
mod running;
mod verdict;

pub use call::{Call, Reply};
pub use case::Case;
pub use claim::Claim;
pub use refusal::Refusal;
pub use running::run;
pub use verdict::Verdict;

// A formula text, read one word after the other.
#![tactic(auto)]

mod binding;
mod state;
mod step;

pub use binding::Binding;
pub use state::{Stage, State};

// A docket examined on a case, line by line, up to its first fault.
#![tactic(auto)]

ghost use Rattle.examining.specs.Examined.{EndsOnce};

mod claiming;
mod examination;
mod steps;

pub use examination::examine;

// Examining a docket from one standing comes to one result and one standing.
pub fn examining_ends_once()
    ensures { EndsOnce }
{}

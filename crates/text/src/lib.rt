// Formula text read into lent cells, and the table over them.
#![tactic(auto)]

mod outline;
mod prefix;
mod reader;
mod table;

pub use outline::Outline;
pub use reader::read;
pub use table::Table;

// Faults that keep their place: a claim's inside a docket's, and that inside the report's.
#![tactic(auto)]

mod docket_fault;
mod placed;
mod report_fault;

pub use docket_fault::DocketFault;
pub use placed::{Placed, with_place};
pub use report_fault::ReportFault;

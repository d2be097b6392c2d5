// Formula text read and written, by examples.
#![tactic(auto)]

#[cfg(test)]
mod buffers;
#[cfg(test)]
mod cells;
#[cfg(test)]
mod examples;
#[cfg(test)]
mod faults;
#[cfg(test)]
mod limits;
#[cfg(test)]
mod questions;
#[cfg(test)]
mod spacing;
#[cfg(test)]
mod tools;

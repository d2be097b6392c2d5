// The cell shelf and the row shelf, by examples.
#![tactic(auto)]

#[cfg(test)]
mod clearing;
#[cfg(test)]
mod crowds;
#[cfg(test)]
mod filling;
#[cfg(test)]
mod fronts;
#[cfg(test)]
mod lending;
#[cfg(test)]
mod lengths;
#[cfg(test)]
mod memory;
#[cfg(test)]
mod space;
#[cfg(test)]
mod tools;
#[cfg(test)]
mod words;

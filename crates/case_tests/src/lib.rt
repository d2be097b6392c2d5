// Cases on formulas and shelves, by examples.
#![tactic(auto)]

#[cfg(test)]
mod axioms;
#[cfg(test)]
mod calls;
#[cfg(test)]
mod example;
#[cfg(test)]
mod grounds;
#[cfg(test)]
mod opening;
#[cfg(test)]
mod reductions;
#[cfg(test)]
mod refusals;
#[cfg(test)]
mod replies;
#[cfg(test)]
mod resolutions;
#[cfg(test)]
mod running;
#[cfg(test)]
mod shelves;
#[cfg(test)]
mod symmetries;
#[cfg(test)]
mod tables;

// Cards, symmetries and images, by examples.
#![tactic(auto)]

#[cfg(test)]
mod acting;
#[cfg(test)]
mod admitting;
#[cfg(test)]
mod among;
#[cfg(test)]
mod imaging;
#[cfg(test)]
mod joining;
#[cfg(test)]
mod making;
#[cfg(test)]
mod mirrors;
#[cfg(test)]
mod symmetries;
#[cfg(test)]
mod tools;

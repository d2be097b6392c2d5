// The image of a formula under a card.
#![tactic(auto)]

mod image;

pub use image::{Image, Inadmissible};

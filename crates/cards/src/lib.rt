// Cards: signed permutations of the variables 1 to 512, passed by value.
#![tactic(auto)]

ghost use Rattle.cards.specs.Outcomes.{Outcomes};

mod card;
mod fault;

pub use card::Card;
pub use fault::CardFault;

// Every list of pairs makes a card or has a first fault, never both, and only one of either.
pub fn every_list_of_pairs_has_one_outcome()
    ensures { Outcomes }
{}

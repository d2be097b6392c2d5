// The card that a list of pairs makes, or the first fault of the list.
ghost use Rattle.std.specs.Prelude.{◌≡◌, ℕ, ◌*◌, ◌<◌, length, MatchOption, MatchResult, slice_index};
ghost use Rattle.cards.specs.Judged.{AllMarked, FirstUnmarked, Fresh, Judged, Rises};
ghost use Rattle.cards.specs.Meant.{meant};
ghost use Rattle.cards.specs.Pairs.{FirstFault, Makes};

use super::Card;
use super::marks::Marks;
use crate::CardFault;
use std::array;

impl Card {
    // The card that takes each variable named to its image; the others stay.
    pub fn from_pairs(pairs: &[(u16, u16)]) -> Result<Card, CardFault>
        ensures { MatchResult result (λ card. Makes pairs.now (meant card)) (λ e. FirstFault pairs.now e) }
    {
        if pairs.len() > 512 {
            return Err(CardFault::Many);
        }
        let mut images = unmoved();
        let mut named = Marks::none();
        let mut seen = Marks::none();
        let mut last: u16 = 0;
        for (k, (v, x)) in pairs.iter().enumerate() {
            judged(k, *v, *x, last, &seen)?;
            images[usize::from(*v)] = *x;
            named.mark(*v);
            seen.mark(*x / 2);
            last = *v;
        }
        match first_unnamed(pairs, &named) {
            Some(k) => Err(CardFault::Unnamed(k)),
            None => Ok(Card::with_images(images)),
        }
    }
}

// The images of variables that all stay.
fn unmoved() -> [u16; 513]
    ensures { (v : ℕ) → v < 513 → slice_index result v ≡ 2 * v }
{
    array::from_fn(|v| 2 * v as u16)
}

// Whether pair k fits behind the last variable and the images seen: first its variable, then its image.
fn judged(k: usize, v: u16, x: u16, last: u16, seen: &Marks) -> Result<(), CardFault>
    ensures { MatchResult result (λ _. Rises last v × Fresh seen.now.marks x) (λ e. Judged k v x last seen.now.marks e) }
{
    if v <= last || v > 512 {
        return Err(CardFault::Variable(k));
    }
    if !(2..=1025).contains(&x) || seen.has(x / 2) {
        return Err(CardFault::Image(k));
    }
    Ok(())
}

// The first pair whose image is over a variable that is not marked.
fn first_unnamed(pairs: &[(u16, u16)], named: &Marks) -> Option<usize>
    ensures { MatchOption result (AllMarked pairs.now named.now.marks (length pairs.now)) (λ k. FirstUnmarked pairs.now named.now.marks k) }
{
    pairs.iter().position(|(_, x)| !named.has(*x / 2))
}

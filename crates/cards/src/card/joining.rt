// The card that undoes a card, and that of two cards one after the other.
ghost use Rattle.std.specs.Prelude.{◌≡◌, ◌<◌, slice_index};
ghost use Rattle.laws.specs.Cards.{Undoes, act};
ghost use Rattle.cards.specs.Maps.{Joins};
ghost use Rattle.cards.specs.Meant.{meant};

use super::Card;
use std::array;

impl Card {
    // The card that takes each image back.
    pub fn inverse(self) -> Card
        ensures back { Undoes (meant result) (meant self) }
        ensures forth { Undoes (meant self) (meant result) }
    {
        // the images say where the variables go, so the places are not written in their order
        let mut images = [0u16; 513];
        for v in 1..513u16 {
            let x = self.images[usize::from(v)];
            images[usize::from(x / 2)] = 2 * v + x % 2;
        }
        Card::with_images(images)
    }

    // The card that does what this one does, and then what the second does.
    pub fn then(self, second: Card) -> Card
        ensures { Joins (meant result) (meant self) (meant second) }
    {
        Card::with_images(array::from_fn(|v| self.image_after(&second, v)))
    }

    // The image, under the second card, of that of variable v.
    fn image_after(&self, second: &Card, v: usize) -> u16
        requires { v < 513 }
        ensures { result ≡ act (meant second.now) (slice_index self.now.images v) }
    {
        second.image(self.images[v])
    }
}

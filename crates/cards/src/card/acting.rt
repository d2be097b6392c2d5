// The image of a literal under a card.
ghost use Rattle.std.specs.Prelude.{◌≡◌, ◌<◌};
ghost use Rattle.calculus.specs.Literals.{neg};
ghost use Rattle.laws.specs.Cards.{image_of, act};
ghost use Rattle.cards.specs.Meant.{meant};

use super::Card;

impl Card {
    // The image of a literal: that of a negation is the negation of the image. What is no literal stays.
    pub fn image(&self, code: u16) -> u16
        ensures { result ≡ act (meant self.now) code }
    {
        let x = self.image_of(code / 2);
        if code % 2 == 0 { x } else { negated(x) }
    }

    // The image of a variable. What is past the card stays.
    fn image_of(&self, v: u16) -> u16
        requires { v < 32768 }
        ensures { result ≡ image_of (meant self.now) v }
    {
        self.images.get(usize::from(v)).copied().unwrap_or(2 * v)
    }
}

// The negation of a literal.
fn negated(code: u16) -> u16
    ensures { result ≡ neg code }
{
    if code % 2 == 0 { code + 1 } else { code - 1 }
}

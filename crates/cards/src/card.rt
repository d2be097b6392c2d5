// A card: the image of each variable, at its place.
ghost use Rattle.std.specs.Prelude.{◌≡◌, ℕ, length, slice_index};
ghost use Rattle.calculus.specs.Literals.{var};
ghost use Rattle.calculus.specs.Meaning.{Variable, Code};
ghost use Rattle.cards.specs.Images.{Permutes};

mod acting;
mod joining;
mod making;
mod marks;

// Every image is a literal, and no two variables have images over the same variable. Place 0 holds 0.
#[derive(Clone, Copy, Debug, PartialEq, Eq)]
pub struct Card {
    images: [u16; 513],
    ghost long: { length images ≡ 513 },
    ghost none: { slice_index images 0 ≡ 0 },
    ghost codes: { (v : ℕ) → Variable 512 v → Code 512 (slice_index images v) },
    ghost apart: { (v w : ℕ) → Variable 512 v × Variable 512 w × (var (slice_index images v) ≡ var (slice_index images w)) → v ≡ w },
}

impl Card {
    // The one place where a card is made.
    fn with_images(images: [u16; 513]) -> Card
        requires { Permutes images }
        ensures { result.images ≡ images }
    {
        Card { images }
    }
}

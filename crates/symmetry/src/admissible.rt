// Whether a card is admissible.
ghost use Rattle.std.specs.Prelude.{◌≡◌, ◌≤◌, true, ◌↔◌};
ghost use Rattle.laws.specs.Cards.{image_of, Admissible};
ghost use Rattle.cards.specs.Meant.{meant};
ghost use Rattle.symmetry.specs.Halves.{FixesOthers, KeepsLevel, KeepsLevels};

use cards::Card;
use formula::Formula;

// Whether the card fixes what is no variable of the formula, and keeps each variable's level.
pub fn is_admissible<F: Formula>(f: &F, card: &Card) -> bool
    ensures { (result ≡ true) ↔ Admissible (F.meaning f.now) (meant card.now) }
{
    fixes_others(f, card) && keeps_levels(f, card)
}

// Whether the card fixes what is no variable of the formula.
fn fixes_others<F: Formula>(f: &F, card: &Card) -> bool
    ensures { (result ≡ true) ↔ FixesOthers (F.meaning f.now) (meant card.now) }
{
    (f.variable_count() + 1..513).all(|v| usize::from(image_of(card, v)) == 2 * v)
}

// Whether the image of each variable is over one of the same level.
fn keeps_levels<F: Formula>(f: &F, card: &Card) -> bool
    ensures { (result ≡ true) ↔ KeepsLevels (F.meaning f.now) (meant card.now) }
{
    (1..f.variable_count() + 1).all(|v| keeps_level(f, card, v))
}

// Whether the image of v is over a variable of the same level.
fn keeps_level<F: Formula>(f: &F, card: &Card, v: usize) -> bool
    requires { v ≤ 512 }
    ensures { (result ≡ true) ↔ KeepsLevel (F.meaning f.now) (meant card.now) v }
{
    f.level(usize::from(image_of(card, v) / 2)) == f.level(v)
}

// The image of a variable.
fn image_of(card: &Card, v: usize) -> u16
    requires { v ≤ 512 }
    ensures { result ≡ image_of (meant card.now) v }
{
    card.image((2 * v) as u16)
}

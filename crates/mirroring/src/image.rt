// The image of a formula under the card that negates its variables.
ghost use Rattle.std.specs.Prelude.{◌≡◌};
ghost use Rattle.cards.specs.Meant.{meant};
ghost use Rattle.images.specs.Within.{formula_in};
ghost use Rattle.mirroring.specs.Negation.{negated, Negates};
ghost use Rattle.writer.specs.Into.{answer, filled};
ghost use Rattle.writer.specs.Written.{written};

use crate::negation::negation;
use cards::Card;
use formula::Formula;
use images::Image;
use writer::WriteFault;

// Writes a formula with every literal negated.
pub(crate) fn write_image<F: Formula + Drop>(f: F, out: &mut [u8]) -> Result<usize, WriteFault>
    ensures answers { result ≡ answer (written (negated (F.meaning f))) out.old }
    ensures holds { out.new ≡ filled (written (negated (F.meaning f))) out.old }
{
    let card = negation(f.variable_count());
    let image = image_under(f, card);
    writer::write(&image, out)
}

// The image under a card that negates every variable; such a card is always admissible.
fn image_under<F: Formula + Drop>(f: F, card: Card) -> Image<F>
    requires { Negates (F.meaning f).n (meant card) }
    ensures { formula_in F.meaning result ≡ negated (F.meaning f) }
{
    Image::new(f, card).unwrap()
}

// The card that negates every variable of a formula.
ghost use Rattle.std.specs.Prelude.{◌≤◌};
ghost use Rattle.cards.specs.Meant.{meant};
ghost use Rattle.mirroring.specs.Negation.{Negates, Negations};

use cards::Card;
use std::array;

// The card that negates the variables 1 to n.
pub(crate) fn negation(n: usize) -> Card
    requires { n ≤ 512 }
    ensures { Negates n (meant result) }
{
    let pairs = negations();
    Card::from_pairs(&pairs[..n]).unwrap()
}

// The pairs of all variables and their negations.
fn negations() -> [(u16, u16); 512]
    ensures { Negations 512 result }
{
    array::from_fn(|k| {
        let variable = k as u16 + 1;
        (variable, 2 * variable + 1)
    })
}

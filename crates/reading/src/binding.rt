// What a block gives its variables, in numbers; both are 0 where a variable is unbound. They are no `Option` of a level and a `Quantifier`:
// a state stands for drafts with any quantifier, and levels are asked for most often.
ghost use Rattle.std.specs.Prelude.{◌≡◌, Some};
ghost use Rattle.formula.specs.Quantifiers.{quantifier_number};

use formula::Quantifier;

#[derive(Clone, Copy, Debug, Default, PartialEq, Eq)]
pub struct Binding {
    // 1 for the outermost block
    pub level: u16,
    // 1 existential, 2 universal
    pub quantifier: u16,
}

// The number of a block's quantifier.
pub(crate) fn number(q: Quantifier) -> u16
    ensures { result ≡ quantifier_number (Some q) }
{
    match q {
        Quantifier::Exists => 1,
        Quantifier::Forall => 2,
    }
}

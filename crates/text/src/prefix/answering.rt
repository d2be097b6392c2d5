// What is asked of a prefix.
ghost use Rattle.std.specs.Prelude.{◌≡◌, slice_index};
ghost use Rattle.formula.specs.Quantifiers.{quantifier_number};
ghost use Rattle.text.specs.Cells.{levels_in, quantifiers_in, code, codes};

use super::Prefix;
use formula::Quantifier;

impl Prefix {
    // The level of variable v; 0 where v is no variable.
    pub(crate) fn level(&self, v: usize) -> u16
        ensures { result ≡ slice_index (levels_in self.now) v }
    {
        self.bindings[..=self.n].get(v).map_or(0, |b| b.level)
    }

    // The quantifier of variable v; None where v is no variable.
    pub(crate) fn quantifier(&self, v: usize) -> Option<Quantifier>
        ensures { quantifier_number result ≡ slice_index (quantifiers_in self.now) v }
    {
        match self.bindings[..=self.n].get(v).map_or(0, |b| b.quantifier) {
            1 => Some(Quantifier::Exists),
            2 => Some(Quantifier::Forall),
            _ => None,
        }
    }

    // Whether each of the codes is one of a literal over the variables.
    pub(crate) fn spans(&self, clause: &[u16]) -> bool
        ensures { result ≡ codes self.now.n clause.now }
    {
        clause.iter().all(|l| self.has_code(usize::from(*l)))
    }

    // Whether a code is one of a literal over the variables.
    fn has_code(&self, l: usize) -> bool
        ensures { result ≡ code self.now.n l }
    {
        (2..2 * (self.n + 1)).contains(&l)
    }
}

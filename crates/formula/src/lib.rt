// A formula is what its six questions answer. Code above is proved once, for every implementation.
#![tactic(auto)]

ghost use Rattle.std.specs.Prelude.{ℕ, length, ◌≡◌};
ghost use Rattle.calculus.specs.Meaning.{Meaning, Formed, level_of, quantifier_of, clause_of, literal_of};
ghost use Rattle.formula.specs.Quantifiers.{quantifier_number};

mod quantifier;

pub use quantifier::Quantifier;

pub trait Formula {
    // what the formula is
    ghost meaning: { Self → Meaning };

    // each implementation shows that its meaning is well formed
    ghost formed: { (f : Self) → Formed (meaning f) };

    // The number n of its variables, which are numbered 1 to n.
    fn variable_count(&self) -> usize
        ensures { result ≡ (meaning self.now).n };

    // The level of variable v, 1 being the outermost; 0 where v is no variable.
    fn level(&self, v: usize) -> u16
        ensures { result ≡ level_of (meaning self.now) v };

    // The quantifier of variable v; none where v is no variable.
    fn quantifier(&self, v: usize) -> Option<Quantifier>
        ensures { quantifier_number result ≡ quantifier_of (meaning self.now) v };

    // The number of its clauses, which are numbered from 0.
    fn clause_count(&self) -> usize
        ensures { result ≡ length (meaning self.now).clauses };

    // How many literals clause j lists; 0 where there is no such clause.
    fn clause_len(&self, j: usize) -> usize
        ensures { result ≡ length (clause_of (meaning self.now) j) };

    // The code at place i of clause j, counted from 0; 0 where there is no such place.
    fn literal(&self, j: usize, i: usize) -> u16
        ensures { result ≡ literal_of (meaning self.now) j i };
}

// A formula that is lent is a formula.
impl<'a, F: Formula> Formula for &'a F {
    ghost meaning = { λ f. F.Formula.meaning f.now };

    ghost formed = { λ f. F.Formula.formed f.now };

    fn variable_count(&self) -> usize {
        (**self).variable_count()
    }

    fn level(&self, v: usize) -> u16 {
        (**self).level(v)
    }

    fn quantifier(&self, v: usize) -> Option<Quantifier> {
        (**self).quantifier(v)
    }

    fn clause_count(&self) -> usize {
        (**self).clause_count()
    }

    fn clause_len(&self, j: usize) -> usize {
        (**self).clause_len(j)
    }

    fn literal(&self, j: usize, i: usize) -> u16 {
        (**self).literal(j, i)
    }
}

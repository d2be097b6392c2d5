// Literals by variable and sign, in a clause.
ghost use Rattle.std.specs.Prelude.{◌≡◌, ◌+◌, ◌*◌, true, ◌||◌, ◌⊎◌, ◌↔◌, ◌==◌};
ghost use Rattle.calculus.specs.Literals.{var};
ghost use Rattle.calculus.specs.Sets.{◌∈◌, has};
ghost use Rattle.rules.specs.Literal.{code_of};

use shelf::Clause;

// A variable, or its negation.
#[derive(Clone, Copy)]
pub(crate) struct Literal {
    pub(crate) variable: usize,
    pub(crate) negated: bool,
}

impl Literal {
    // Whether the code is that of the literal.
    pub(crate) fn is(self, code: u16) -> bool
        ensures { result ≡ (code_of self == code) }
    {
        is_over(code, self.variable) && (code % 2 == 1) == self.negated
    }
}

// Whether the code is that of v with some sign.
pub(crate) fn is_over(code: u16, v: usize) -> bool
    ensures { result ≡ (var code == v) }
{
    usize::from(code) / 2 == v
}

// Whether the clause has the literal.
pub(crate) fn holds(clause: Clause<'_>, literal: Literal) -> bool
    ensures test { result ≡ has (code_of literal) clause.entry.codes.now }
    ensures meaning { (result ≡ true) ↔ (code_of literal ∈ clause.entry.codes.now) }
{
    clause.codes().iter().any(|code| literal.is(*code))
}

// Whether the clause has v with some sign.
pub(crate) fn holds_variable(clause: Clause<'_>, v: usize) -> bool
    ensures test { result ≡ (has (2 * v) clause.entry.codes.now || has (2 * v + 1) clause.entry.codes.now) }
    ensures meaning { (result ≡ true) ↔ ((2 * v ∈ clause.entry.codes.now) ⊎ (2 * v + 1 ∈ clause.entry.codes.now)) }
{
    let plain = Literal {
        variable: v,
        negated: false,
    };
    let negated = Literal {
        variable: v,
        negated: true,
    };
    holds(clause, plain) || holds(clause, negated)
}

// When a rule may be used.
ghost use Rattle.std.specs.Prelude.{◌≡◌, true, ◌↔◌};
ghost use Rattle.laws.specs.Claims.{resolvable, reducible, innermost};
ghost use Rattle.laws.specs.Clauses.{Resolvable, Reducible, Innermost};
ghost use Rattle.rules.specs.Depth.{outside};

use super::literals::{Literal, holds, holds_variable};
use formula::{Formula, Quantifier};
use shelf::Clause;

// Whether two clauses may be resolved upon v: it is existential, the first has it, and the second its negation.
pub fn is_resolvable<F: Formula>(f: &F, first: Clause<'_>, second: Clause<'_>, v: usize) -> bool
    ensures test { result ≡ resolvable (F.meaning f.now) first.entry.codes.now second.entry.codes.now v }
    ensures meaning { (result ≡ true) ↔ Resolvable (F.meaning f.now) first.entry.codes.now second.entry.codes.now v }
{
    let plain = Literal {
        variable: v,
        negated: false,
    };
    let negated = Literal {
        variable: v,
        negated: true,
    };
    f.quantifier(v) == Some(Quantifier::Exists) && holds(first, plain) && holds(second, negated)
}

// Whether a clause may be reduced by v: it is universal, the clause has it with some sign, and no existential literal lies as deep.
pub fn is_reducible<F: Formula>(f: &F, parent: Clause<'_>, v: usize) -> bool
    ensures test { result ≡ reducible (F.meaning f.now) parent.entry.codes.now v }
    ensures meaning { (result ≡ true) ↔ Reducible (F.meaning f.now) parent.entry.codes.now v }
{
    f.quantifier(v) == Some(Quantifier::Forall)
        && holds_variable(parent, v)
        && is_innermost(f, parent, v)
}

// Whether every existential literal of the clause has a smaller level than v.
fn is_innermost<F: Formula>(f: &F, parent: Clause<'_>, v: usize) -> bool
    ensures test { result ≡ innermost (F.meaning f.now) parent.entry.codes.now v }
    ensures meaning { (result ≡ true) ↔ Innermost (F.meaning f.now) parent.entry.codes.now v }
{
    let level = f.level(v);
    parent
        .codes()
        .iter()
        .all(|code| is_outside(f, *code, level))
}

// Whether a literal is universal, or has a smaller level than the one given.
fn is_outside<F: Formula>(f: &F, code: u16, level: u16) -> bool
    ensures { result ≡ outside (F.meaning f.now) level code }
{
    let u = usize::from(code / 2);
    f.quantifier(u) != Some(Quantifier::Exists) || f.level(u) < level
}

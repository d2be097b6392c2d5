// The clause of each rule.
ghost use Rattle.std.specs.Prelude.{◌≡◌, ◌⊎◌, ◌↔◌, ◌++◌, ℕ, Option, Some, map};
ghost use Rattle.std.specs.List.{filter_map};
ghost use Rattle.calculus.specs.Sets.{◌∈◌};
ghost use Rattle.cards.specs.Meant.{meant};
ghost use Rattle.laws.specs.Cards.{act, Image};
ghost use Rattle.laws.specs.Claims.{sorted, without, resolvent as the_resolvent, reduced as the_reduced};
ghost use Rattle.laws.specs.Clauses.{Resolvent, Reduced};
ghost use Rattle.rules.specs.Literal.{code_of};
ghost use Rattle.rules.specs.Taking.{TakesTo};
ghost use Rattle.sets.specs.Members.{members};

use super::literals::{Literal, is_over};
use cards::Card;
use sets::{ClauseSet, LiteralSet};
use shelf::Clause;

// The resolvent of two clauses upon v: the first without v, joined with the second without its negation.
pub fn resolvent(first: Clause<'_>, second: Clause<'_>, v: usize) -> LiteralSet
    ensures clause { members result.words ≡ the_resolvent first.entry.codes.now second.entry.codes.now v }
    ensures rule { Resolvent first.entry.codes.now second.entry.codes.now v (members result.words) }
{
    let plain = Literal {
        variable: v,
        negated: false,
    };
    let negated = Literal {
        variable: v,
        negated: true,
    };
    joined(first, plain, second, negated)
}

// The first clause without one literal, joined with the second without another.
fn joined(first: Clause<'_>, a: Literal, second: Clause<'_>, b: Literal) -> LiteralSet
    ensures clause { members result.words ≡ sorted (without (code_of a) first.entry.codes.now ++ without (code_of b) second.entry.codes.now) }
    ensures rule { (l : ℕ) → (l ∈ members result.words) ↔ (((l ∈ first.entry.codes.now) × (l ≡ code_of a → ⊥)) ⊎ ((l ∈ second.entry.codes.now) × (l ≡ code_of b → ⊥))) }
{
    let mut set = LiteralSet::new();
    add_without(&mut set, first, a);
    add_without(&mut set, second, b);
    set
}

// Puts the literals of a clause into a set, but for one.
fn add_without(set: &mut LiteralSet, clause: Clause<'_>, literal: Literal)
    ensures { members set.new.words ≡ sorted (members set.old.words ++ without (code_of literal) clause.entry.codes.now) }
{
    add_taken(set, clause, |code| (!literal.is(code)).then_some(code));
}

// Puts into a set what each literal of a clause is taken to, where it is taken to a literal.
fn add_taken<T: Fn(u16) -> Option<u16>>(set: &mut LiteralSet, clause: Clause<'_>, taken: T)
    requires { T.IsAlwaysCallable taken }
    ensures { (h : ℕ → Option ℕ) → TakesTo (T.post taken) h → members set.new.words ≡ sorted (members set.old.words ++ filter_map h clause.entry.codes.now) }
{
    let codes = clause.codes();
    for code in codes {
        if let Some(literal) = taken(*code) {
            set.insert(literal);
        }
    }
}

// The clause without v.
pub fn reduced(parent: Clause<'_>, v: usize) -> ClauseSet
    ensures clause { members result.literals.words ≡ the_reduced parent.entry.codes.now v }
    ensures rule { Reduced parent.entry.codes.now v (members result.literals.words) }
{
    let mut set = LiteralSet::new();
    add_taken(&mut set, parent, |code| (!is_over(code, v)).then_some(code));
    ClauseSet::try_from(set).unwrap()
}

// The image of a clause under a card.
pub fn image(parent: Clause<'_>, card: &Card) -> ClauseSet
    ensures clause { members result.literals.words ≡ sorted (map (act (meant card.now)) parent.entry.codes.now) }
    ensures rule { Image (meant card.now) parent.entry.codes.now (members result.literals.words) }
{
    let mut set = LiteralSet::new();
    add_taken(
        &mut set,
        parent,
        |code: u16| -> Option<u16>
            ensures { result ≡ Some (act (meant card.entry.now) code) }
        { Some(card.image(code)) },
    );
    ClauseSet::try_from(set).unwrap()
}

// Whether a list of codes is, as a set, a clause of a formula.
ghost use Rattle.std.specs.Prelude.{◌≡◌, true, ◌↔◌, MatchOption};
ghost use Rattle.laws.specs.Cards.{Among};
ghost use Rattle.sets.specs.Members.{members};

use crate::lookup::has_clause;
use formula::Formula;
use sets::LiteralSet;

// Whether some clause of the formula has the same literals; none has where some code is no literal.
pub fn is_among<F: Formula>(f: &F, codes: &[u16]) -> bool
    ensures { (result ≡ true) ↔ Among (F.meaning f.now) codes.now }
{
    set_for(f, codes).is_some_and(|set| has_clause(f, &set))
}

// The set to look up for a list of codes; none where some code is no literal, so that no clause has it.
fn set_for<F: Formula>(f: &F, codes: &[u16]) -> Option<LiteralSet>
    ensures { MatchOption result (Among (F.meaning f.now) codes.now → ⊥) (λ s. Among (F.meaning f.now) (members s.words) ↔ Among (F.meaning f.now) codes.now) }
{
    LiteralSet::of(codes)
}

// Sets of literals looked up among the clauses of a formula.
ghost use Rattle.std.specs.Prelude.{◌≡◌, true, ◌↔◌};
ghost use Rattle.calculus.specs.Meaning.{clause_of};
ghost use Rattle.laws.specs.Cards.{Among};
ghost use Rattle.laws.specs.Claims.{sorted};
ghost use Rattle.sets.specs.Members.{members};

use formula::Formula;
use sets::LiteralSet;

// Whether some clause has the literals of the set.
pub(crate) fn has_clause<F: Formula>(f: &F, set: &LiteralSet) -> bool
    ensures { (result ≡ true) ↔ Among (F.meaning f.now) (members set.now.words) }
{
    (0..f.clause_count()).any(|j| is_clause(f, set, j))
}

// Whether clause j has the literals of the set.
fn is_clause<F: Formula>(f: &F, set: &LiteralSet, j: usize) -> bool
    ensures { (result ≡ true) ↔ (members set.now.words ≡ sorted (clause_of (F.meaning f.now) j)) }
{
    LiteralSet::of_clause(f, j).same(set)
}

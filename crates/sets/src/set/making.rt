// The sets of listed codes, and of clauses.
ghost use Rattle.std.specs.Prelude.{◌≡◌, MatchOption};
ghost use Rattle.std.specs.List.{AllByRecursion};
ghost use Rattle.calculus.specs.Meaning.{Code, clause_of};
ghost use Rattle.laws.specs.Claims.{sorted};
ghost use Rattle.sets.specs.Members.{members};

use super::LiteralSet;
use super::bits::Literal;
use formula::Formula;

impl LiteralSet {
    // The set of the codes; none where some code is no literal.
    pub fn of(codes: &[u16]) -> Option<LiteralSet>
        ensures { MatchOption result (AllByRecursion (Code 512) codes.now → ⊥) (λ s. AllByRecursion (Code 512) codes.now × (members s.words ≡ sorted codes.now)) }
    {
        let mut set = LiteralSet::new();
        for code in codes {
            set.add(Literal::of(*code)?);
        }
        Some(set)
    }

    // The set of the literals of clause j; empty where there is no such clause.
    pub fn of_clause<F: Formula>(f: &F, j: usize) -> LiteralSet
        ensures { members result.words ≡ sorted (clause_of (F.meaning f.now) j) }
    {
        let mut clause = LiteralSet::new();
        for i in 0..f.clause_len(j) {
            clause.insert(f.literal(j, i));
        }
        clause
    }
}

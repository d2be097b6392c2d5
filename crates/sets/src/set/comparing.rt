// Questions on whole sets, a word at a time.
ghost use Rattle.std.specs.Prelude.{◌≡◌, true, not, ◌↔◌, ◌==◌, []};
ghost use Rattle.calculus.specs.Literals.{Tautological};
ghost use Rattle.sets.specs.Members.{members};
ghost use Rattle.sets.specs.Steps.{pairs};

use super::LiteralSet;

impl LiteralSet {
    // Whether the two sets hold the same literals.
    #[tactic(auto, using(crate::proofs::Comparing::same_literals))]
    pub fn same(&self, other: &LiteralSet) -> bool
        ensures { (result ≡ true) ↔ (members self.now.words ≡ members other.now.words) }
    {
        self == other
    }

    // Whether the set has no literal.
    pub fn is_empty(&self) -> bool
        ensures { (result ≡ true) ↔ (members self.now.words ≡ []) }
    {
        self.same(&LiteralSet::new())
    }

    // Whether the set holds some variable with both signs.
    pub fn tautological(&self) -> bool
        ensures { (result ≡ true) ↔ Tautological (members self.now.words) }
    {
        self.words.iter().any(|word| both_signs(*word))
    }
}

// Whether some bit at an even place is set together with the next one: a variable's two literals stand so in a word.
fn both_signs(word: u64) -> bool
    ensures { result ≡ not (pairs word == 0) }
{
    word & (word >> 1) & 0x5555_5555_5555_5555 != 0
}

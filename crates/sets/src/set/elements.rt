// The empty set, and its elements one by one.
ghost use Rattle.std.specs.Prelude.{◌≡◌, true, false, ◌↔◌, []};
ghost use Rattle.calculus.specs.Meaning.{Code};
ghost use Rattle.calculus.specs.Sets.{has};
ghost use Rattle.laws.specs.Claims.{insert};
ghost use Rattle.sets.specs.Members.{members};

use super::LiteralSet;
use super::bits::Literal;

impl LiteralSet {
    // The set with no literal.
    #[tactic(auto, using(crate::proofs::Sorted::no_members))]
    pub fn new() -> LiteralSet
        ensures { members result.words ≡ [] }
    {
        LiteralSet { words: [0; 16] }
    }

    // Puts a literal into the set, and answers whether the code is one; else the set stays.
    pub fn insert(&mut self, code: u16) -> bool
        ensures literal { (result ≡ true) ↔ Code 512 code }
        ensures added { result ≡ true → members self.new.words ≡ insert code (members self.old.words) }
        ensures kept { result ≡ false → self.new.words ≡ self.old.words }
    {
        match Literal::of(code) {
            Some(literal) => {
                self.add(literal);
                true
            }
            None => false,
        }
    }

    // Whether the code is in the set.
    #[tactic(auto, using(crate::proofs::Elements::has_literal, crate::proofs::Elements::has_none))]
    pub fn contains(&self, code: u16) -> bool
        ensures { result ≡ has code (members self.now.words) }
    {
        Literal::of(code).is_some_and(|literal| self.has_bit(literal))
    }
}

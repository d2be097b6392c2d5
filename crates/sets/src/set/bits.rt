// The bit of a literal.
ghost use Rattle.std.specs.Prelude.{◌≡◌, ◌-◌, ◌/◌, ◌%◌, ◌<◌, MatchOption};
ghost use Rattle.calculus.specs.Meaning.{Code};
ghost use Rattle.laws.specs.Claims.{insert};
ghost use Rattle.sets.specs.Members.{has_bit, members};
ghost use Rattle.sets.specs.Steps.{with_bit};

use super::LiteralSet;

// A code that is a literal's.
#[derive(Clone, Copy)]
pub(super) struct Literal {
    code: u16,
    ghost literal: { Code 512 code },
}

impl Literal {
    // The literal of a code; none where the code is no literal's.
    pub(super) fn of(code: u16) -> Option<Literal>
        ensures { MatchOption result (Code 512 code → ⊥) (λ l. l.code ≡ code) }
    {
        if 2 <= code && code < 1026 {
            Some(Literal { code })
        } else {
            None
        }
    }

    // The word that has its bit.
    fn word(self) -> usize
        ensures place { result ≡ (self.code - 2) / 64 }
        ensures within { result < 16 }
    {
        usize::from((self.code - 2) / 64)
    }

    // The place of its bit in that word.
    fn bit(self) -> u16
        ensures { result ≡ (self.code - 2) % 64 }
    {
        (self.code - 2) % 64
    }
}

impl LiteralSet {
    // Whether the bit of a literal is set.
    pub(super) fn has_bit(&self, literal: Literal) -> bool
        ensures { result ≡ has_bit self.now.words literal.code }
    {
        (self.words[literal.word()] >> literal.bit()) % 2 == 1
    }

    // Puts a literal into the set.
    pub(super) fn add(&mut self, literal: Literal)
        ensures { members self.new.words ≡ insert literal.code (members self.old.words) }
    {
        self.set_bit(literal);
    }

    // Sets the bit of a literal.
    fn set_bit(&mut self, literal: Literal)
        ensures { self.new.words ≡ with_bit self.old.words literal.code }
    {
        self.words[literal.word()] |= 1u64 << literal.bit();
    }
}

// The words of a set, as they stand.
ghost use Rattle.std.specs.Prelude.{◌≡◌};

use super::LiteralSet;

impl LiteralSet {
    // The words, to be laid into other memory.
    pub fn words(&self) -> [u64; 16]
        ensures { result ≡ self.now.words }
    {
        self.words
    }
}

// The set that the words hold.
impl From<[u64; 16]> for LiteralSet {
    ghost from_gives = { λ words set. set.words ≡ words };

    fn from(words: [u64; 16]) -> LiteralSet {
        LiteralSet { words }
    }
}

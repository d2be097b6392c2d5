// Where the first word of a text begins: behind the comments.
ghost use Rattle.std.specs.Prelude.{◌≡◌, ℕ, ◌≤◌, [], length, drop};
ghost use Rattle.words.specs.Words.{next, words, words_from};
ghost use Rattle.words.specs.Regions.{region_of};

// Where a byte stands.
#[derive(Clone, Copy, PartialEq, Eq)]
enum Region {
    LineStart,
    Indented,
    Comment,
    Body,
}

impl Region {
    // The region behind a byte.
    fn behind(self, byte: u8) -> Region
        ensures { region_of result ≡ next (region_of self) byte }
    {
        match (self, char::from(byte)) {
            (Region::Body, _) => Region::Body,
            (Region::Comment, '\n') => Region::LineStart,
            (Region::Comment, _) => Region::Comment,
            (Region::LineStart, 'c') => Region::Comment,
            (_, '\n') => Region::LineStart,
            (_, '\t' | '\r' | ' ') => Region::Indented,
            _ => Region::Body,
        }
    }
}

// The offset of the first word, or the text's length where there is none.
pub fn first_word(text: &[u8]) -> usize
    ensures within { result ≤ length text.now }
    ensures words { words text.now ≡ words_from result [] (drop result text.now) }
{
    // A loop, since the region of each byte follows from the one before: `position` would need a closure that changes it.
    let mut region = Region::LineStart;
    for (i, b) in text.iter().enumerate() {
        region = region.behind(*b);
        if region == Region::Body {
            return i;
        }
    }
    text.len()
}

// Reading on.
ghost use Rattle.std.specs.Prelude.{◌≡◌, ℕ, ◌≤◌, [], length, MatchOption};
ghost use Rattle.std.specs.List.{prefix_len};
ghost use Rattle.std.specs.Iterator.{item_count};
ghost use Rattle.words.specs.Words.{blank, lexemes};
ghost use Rattle.words.specs.Rest.{in_run, lexemes_from, First, rest, text_of, Gives};

use super::super::comments::first_word;
use super::super::token::{Lexeme, Token};
use super::Words;

// Whether the byte parts words.
fn is_blank(b: u8) -> bool
    ensures { result ≡ blank b }
{
    matches!(char::from(b), '\t' | '\n' | '\r' | ' ')
}

// How many bytes stand in front that are blank, or that are not.
fn run(s: &[u8], blanks: bool) -> usize
    ensures value { result ≡ prefix_len (in_run blanks) s.now }
    ensures bound { result ≤ length s.now }
{
    s.iter().take_while(|b| is_blank(**b) == blanks).count()
}

// The first word that begins at the offset or later, and the offset behind it.
fn word_from(text: &[u8], at: usize) -> Option<(Lexeme, usize)>
    requires { at ≤ length text.now }
    ensures { MatchOption result (lexemes_from at text.now ≡ []) (λ x. First at text.now x.0 x.1) }
{
    let place = at + run(&text[at..], true);
    let end = place + run(&text[place..], false);
    if place == end {
        return None;
    }
    let token = Token::from(&text[place..end]);
    Some((Lexeme { place, token }, end))
}

impl<'a> Words<'a> {
    // All the words of a text.
    pub fn new(text: &'a [u8]) -> Words<'a>
        ensures words { rest result ≡ lexemes text.now }
        ensures text { text_of result ≡ text.now }
    {
        Words {
            text,
            at: first_word(text),
        }
    }
}

impl<'a> Iterator for Words<'a> {
    type Item = Lexeme;

    ghost next_gives = { Gives };

    ghost remaining = { item_count rest };

    // The next word; None where no word is left.
    fn next(&mut self) -> Option<Lexeme> {
        let (lexeme, end) = word_from(self.text, self.at)?;
        self.at = end;
        Some(lexeme)
    }
}

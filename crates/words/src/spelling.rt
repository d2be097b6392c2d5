// What a word says: a number, one of the four names, or something else.
ghost use Rattle.std.specs.Prelude.{◌≡◌, ℕ, ◌≤◌, length};
ghost use Rattle.words.specs.Tokens.{digit, digits_after, natural, name, negated, counted, token_of};

use super::token::Token;

// The value of at most five digits; None where a byte is no digit.
fn digits_value(s: &[u8]) -> Option<u32>
    requires { length s.now ≤ 5 }
    ensures { result ≡ digits_after 0 s.now }
{
    let mut v = 0;
    for b in s {
        v = v * 10 + char::from(*b).to_digit(10)?;
    }
    Some(v)
}

// The value of one to five digits that have no leading zero.
fn natural_of(word: &[u8]) -> Option<u32>
    ensures { result ≡ natural word.now }
{
    match word {
        [] | [b'0', _, ..] => None,
        _ if word.len() > 5 => None,
        _ => digits_value(word),
    }
}

// The number below zero whose sign stands before these digits.
fn negative_of(digits: &[u8]) -> Token
    ensures { result ≡ negated (natural digits.now) }
{
    match natural_of(digits) {
        None | Some(0) => Token::Other,
        Some(k) => Token::Negative(k),
    }
}

// The words p, cnf, e and a.
fn name_of(word: &[u8]) -> Token
    ensures { result ≡ name word.now }
{
    match word {
        [letter] => match char::from(*letter) {
            'p' => Token::Problem,
            'e' => Token::Exists,
            'a' => Token::Forall,
            _ => Token::Other,
        },
        b"cnf" => Token::Cnf,
        _ => Token::Other,
    }
}

// What a word says that has no sign.
fn unsigned_of(word: &[u8]) -> Token
    ensures { result ≡ counted word.now (natural word.now) }
{
    match natural_of(word) {
        Some(k) => Token::Number(k),
        None => name_of(word),
    }
}

// What a word says.
impl<'a> From<&'a [u8]> for Token {
    ghost from_gives = { λ word t. t ≡ token_of word.now };

    fn from(word: &'a [u8]) -> Token {
        match word {
            [b'-', digits @ ..] => negative_of(digits),
            _ => unsigned_of(word),
        }
    }
}

// Formula text cut into words, and theorems on words, each on the contract of a small function.
#![tactic(auto)]

ghost use Rattle.words.specs.Theorems.{NumbersAreDecimals, WordsBehindNeverMatter};

mod comments;
mod reader;
mod spelling;
mod token;

pub use reader::Words;
pub use token::{Lexeme, Token};

// The words that say numbers are the decimal numerals below 100000.
pub fn numbers_are_decimals()
    ensures { NumbersAreDecimals }
{}

// What stands behind a word changes no word up to it.
pub fn words_behind_never_matter()
    ensures { WordsBehindNeverMatter }
{}

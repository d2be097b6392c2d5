// What a word says.
#[derive(Clone, Copy, Debug, PartialEq, Eq)]
pub enum Token {
    Problem,
    Cnf,
    Exists,
    Forall,
    Number(u32),
    Negative(u32),
    Other,
}

// A word by what it says and the offset of its first byte.
#[derive(Clone, Copy, Debug, PartialEq, Eq)]
pub struct Lexeme {
    pub place: usize,
    pub token: Token,
}

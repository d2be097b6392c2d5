// What is known of the formula.
ghost use Rattle.std.specs.Prelude.{◌≡◌};
ghost use Rattle.case.specs.Answers.{verdict_number};

// Refuted once the empty clause has been kept, else open; with the number of claims granted.
#[derive(Clone, Copy, Debug, PartialEq, Eq)]
pub enum Verdict {
    Refuted(usize),
    Open(usize),
}

impl Verdict {
    // How many claims were granted.
    pub fn granted(self) -> usize
        ensures { result ≡ verdict_number self }
    {
        match self {
            Verdict::Refuted(granted) | Verdict::Open(granted) => granted,
        }
    }
}

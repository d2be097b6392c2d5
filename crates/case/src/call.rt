// The calls on a case as values, and what they are answered.
use super::claim::Claim;
use super::refusal::Refusal;
use super::verdict::Verdict;

// A line is claimed, or the verdict is asked for.
#[derive(Clone, Copy, Debug, PartialEq, Eq)]
pub enum Call {
    Claim(Claim),
    Verdict,
}

// The number of the line that was granted or why it was refused, or the verdict.
#[derive(Clone, Copy, Debug, PartialEq, Eq)]
pub enum Reply {
    Claim(Result<usize, Refusal>),
    Verdict(Verdict),
}

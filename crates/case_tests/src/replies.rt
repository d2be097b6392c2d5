// Replies, and the names they have in the tables.
use case::{Refusal, Reply, Verdict};

pub const CLOSED: Reply = Reply::Claim(Err(Refusal::Closed));

pub const ABSENT: Reply = Reply::Claim(Err(Refusal::Absent));

pub const TAUTOLOGY: Reply = Reply::Claim(Err(Refusal::Tautology));

pub const PIVOT: Reply = Reply::Claim(Err(Refusal::Pivot));

pub const REDUCTION: Reply = Reply::Claim(Err(Refusal::Reduction));

pub const LEVEL: Reply = Reply::Claim(Err(Refusal::Level));

pub const ASYMMETRY: Reply = Reply::Claim(Err(Refusal::Asymmetry));

pub const FULL: Reply = Reply::Claim(Err(Refusal::Full));

// A claim granted as this line.
pub(crate) fn line(number: usize) -> Reply {
    Reply::Claim(Ok(number))
}

// The verdict that the formula is refuted, with so many claims granted.
pub(crate) fn refuted(granted: usize) -> Reply {
    Reply::Verdict(Verdict::Refuted(granted))
}

// The verdict that nothing is known of it yet.
pub(crate) fn open(granted: usize) -> Reply {
    Reply::Verdict(Verdict::Open(granted))
}

// Whether the reply grants a claim.
pub(crate) fn is_granted(reply: Reply) -> bool {
    matches!(reply, Reply::Claim(Ok(_)))
}

// A claim and a call as values, answered.
ghost use Rattle.case.specs.Answers.{line_of, meant_call, meant_reply};
ghost use Rattle.case.specs.Claimed.{ClaimRight, CallRight};
ghost use Rattle.case.specs.Standing.{standing};

use super::super::call::{Call, Reply};
use super::super::claim::Claim;
use super::super::refusal::Refusal;
use super::Case;
use formula::Formula;
use shelf::Shelf;

impl<F: Formula, S: Shelf> Case<F, S> {
    // Claims a line; it answers the number of the line, or why it is refused.
    // Inlined, since a claim has room for a card, which a call would copy.
    #[inline(always)]
    pub fn claim(&mut self, claim: Claim) -> Result<usize, Refusal>
        ensures { ClaimRight (standing F.meaning S.meaning self.old) (line_of claim) result (standing F.meaning S.meaning self.new) }
    {
        match claim {
            Claim::Axiom(clause) => self.axiom(clause),
            Claim::Resolution(first, second, variable) => self.resolution(first, second, variable),
            Claim::Reduction(line, variable) => self.reduction(line, variable),
            Claim::Symmetry(line, card) => self.symmetry(line, card),
        }
    }

    // Makes the call.
    pub fn answer(&mut self, call: Call) -> Reply
        ensures { CallRight (standing F.meaning S.meaning self.old) (meant_call call) (meant_reply result) (standing F.meaning S.meaning self.new) }
    {
        match call {
            Call::Claim(claim) => Reply::Claim(self.claim(claim)),
            Call::Verdict => Reply::Verdict(self.verdict()),
        }
    }
}

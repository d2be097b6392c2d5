// The calculus over formulas, and what is proved of it, each theorem on the contract of a small function.
#![tactic(auto)]

ghost use Rattle.laws.specs.Order.{OrdersRight};
ghost use Rattle.laws.specs.Replies.{CallsHaveOneOutcome};
ghost use Rattle.laws.specs.Theorems.{ClausesProper, Sound, SymmetryAddsNothing, ImagesDerive, Complete, CardsUndone};
ghost use Rattle.laws.specs.Verdicts.{ChecksDecide, ClaimsAnswered, NothingLost, StatesRight, VerdictsRight, ClaimsSuffice, RefutedExactlyIfFalse};
ghost use Rattle.laws.specs.Worked.{Works};

// Truth sets each variable once, by level and then by number.
pub fn truth_sets_each_variable_once()
    ensures { OrdersRight }
{}

// A clause that can be derived has ascending literals of the formula's variables, none with its negation.
pub fn derived_clauses_are_proper()
    ensures { ClausesProper }
{}

// A formula from which the empty clause can be derived is false.
pub fn what_is_refuted_is_false()
    ensures { Sound }
{}

// What can be derived can be derived without symmetry lines.
pub fn symmetry_adds_nothing()
    ensures { SymmetryAddsNothing }
{}

// The images of lines 0 to p, under a symmetry, stand in the place of a symmetry line.
pub fn images_of_lines_derive()
    ensures { ImagesDerive }
{}

// A false formula of at most twelve variables has a short derivation of the empty clause.
pub fn what_is_false_is_refuted()
    ensures { Complete }
{}

// On an ample store the lines of such a derivation are granted one by one, and the verdict is that the formula is refuted.
pub fn claims_suffice()
    ensures { ClaimsSuffice }
{}

// On an ample store, with at most twelve variables, some list of calls ends in a refutation exactly where the formula is false.
pub fn refuted_exactly_if_false()
    ensures { RefutedExactlyIfFalse }
{}

// A claim is granted exactly where the calculus permits it, and refused with the number of the first check that fails.
pub fn the_checks_decide_the_calculus()
    ensures { ChecksDecide }
{}

// After any calls, each claim is answered by its checks, and changes nothing where it is refused.
pub fn every_claim_is_answered_by_its_checks()
    ensures { ClaimsAnswered }
{}

// Every list of calls has exactly one list of replies, and one list of clauses kept.
pub fn every_list_of_calls_has_one_outcome()
    ensures { CallsHaveOneOutcome }
{}

// What has been answered and kept stays, whatever is called next.
pub fn nothing_is_lost()
    ensures { NothingLost }
{}

// In every state that calls lead to, the clauses kept can be derived, and the formula is false where the empty clause is one of them.
pub fn every_state_reached_is_right()
    ensures { StatesRight }
{}

// After any calls on any store the verdict and its number are right.
pub fn every_verdict_is_right()
    ensures { VerdictsRight }
{}

// Every card is undone by another, which it undoes in turn.
pub fn every_card_is_undone()
    ensures { CardsUndone }
{}

// The definitions do on two small formulas what they should, by computation.
pub fn worked_examples()
    ensures { Works }
{}

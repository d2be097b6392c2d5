// The grammar of formula text, over words, and what is proved of it, each theorem on the contract of a small function.
#![tactic(auto)]

ghost use Rattle.grammar.specs.Theorems.{BehindNeverMatters, OneOutcome, ReadFormed, WordsThatFollow, WordsDecide};

mod rule;

pub use rule::{Rule, TextFault};

// Every text comes to exactly one outcome: a formula, or the first fault from the left.
pub fn every_text_comes_to_one_outcome()
    ensures { OneOutcome }
{}

// A formula that is read is well formed.
pub fn a_formula_that_is_read_is_well_formed()
    ensures { ReadFormed }
{}

// A word breaks no rule exactly where the draft with that word is a lawful one.
pub fn a_word_may_follow_where_the_longer_draft_is_lawful()
    ensures { WordsThatFollow }
{}

// Texts with the same words are the same formula, whatever parts them and whatever the comments say.
pub fn the_words_decide_the_formula()
    ensures { WordsDecide }
{}

// What stands behind the word of a fault never matters.
pub fn what_stands_behind_a_fault_never_matters()
    ensures { BehindNeverMatters }
{}

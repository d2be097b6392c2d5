// The meanings that every contract cites, and theorems over them, each on the contract of a small function.
#![tactic(auto)]

ghost use Rattle.calculus.specs.Examples.{Examples};

// The definitions of well-formedness and truth hold of two small formulas what they should.
pub fn examples_stand()
    ensures { Examples }
{}

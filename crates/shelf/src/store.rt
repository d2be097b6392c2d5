// How much a shelf can bear, what each clause weighs, and what each of its literals adds.
ghost use Rattle.std.specs.Prelude.{◌≡◌, ◌+◌, ◌*◌, ◌^◌, ◌<◌, true, ◌↔◌, SomeIff};

// The three numbers of a shelf.
#[derive(Clone, Copy, Debug, PartialEq, Eq)]
pub struct Store {
    pub capacity: usize,
    pub base: usize,
    pub rate: usize,
}

impl Store {
    ghost use Rattle.laws.specs.Store.{Space};
    ghost use Rattle.shelf.specs.Stores.{store_of, Bears};

    // Whether there is space for so many clauses of so many literals each.
    #[tactic(auto, using(crate::proofs::Quotients::quotient_is, crate::proofs::Quotients::one_is_lighter))]
    pub fn has_space(self, clauses: usize, literals: usize) -> bool
        ensures { (result ≡ true) ↔ Space (store_of self) clauses literals }
    {
        clauses <= 8192
            && (clauses == 0
                || self
                    .weight(literals)
                    .is_some_and(|weight| weight <= self.capacity / clauses))
    }

    // Whether there is room for a clause of so many literals beside so many lines, which weigh so much.
    pub fn has_room(self, lines: usize, heavy: usize, literals: usize) -> bool
        ensures { (result ≡ true) ↔ Bears (store_of self) lines heavy literals }
    {
        lines < 8192
            && self
                .weight(literals)
                .and_then(|weight| weight.checked_add(heavy))
                .is_some_and(|weight| weight <= self.capacity)
    }

    // What a clause of so many literals weighs; none where that is too much to count.
    fn weight(self, literals: usize) -> Option<usize>
        ensures { SomeIff result (self.base + self.rate * literals < 2 ^ 64) (self.base + self.rate * literals) }
    {
        self.rate.checked_mul(literals)?.checked_add(self.base)
    }
}

// The prefix of a formula: how each of its variables is bound.
ghost use Rattle.std.specs.Prelude.{◌+◌, ◌≤◌, take};
ghost use Rattle.calculus.specs.Meaning.{Prefix as Bound};
ghost use Rattle.reading.specs.Bindings.{levels_of, quantifiers_of};

use reading::Binding;

mod answering;

#[derive(Clone, Copy, Debug, PartialEq, Eq)]
pub(crate) struct Prefix {
    pub(crate) n: usize,
    pub(crate) bindings: [Binding; 513],
    ghost few: { n ≤ 512 },
    ghost bound: { ∥ Bound n (take (n + 1) (levels_of bindings)) (take (n + 1) (quantifiers_of bindings)) ∥₁ },
}

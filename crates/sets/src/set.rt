// A set of literals.
ghost use Rattle.std.specs.Prelude.{◌≡◌, ℕ, ◌^◌, ◌<◌, length, slice_index};

mod bits;
mod comparing;
mod elements;
mod listing;
mod making;
mod words;

// Literal l, from 2 to 1025, is bit l - 2 of sixteen words.
#[derive(Clone, Copy, Debug, PartialEq, Eq)]
pub struct LiteralSet {
    words: [u64; 16],
    ghost long: { length words ≡ 16 },
    ghost small: { (i : ℕ) → slice_index words i < 2 ^ 64 },
}

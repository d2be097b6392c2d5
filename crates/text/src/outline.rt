// What a formula is besides its literals: its prefix, and how many clauses it has.
ghost use Rattle.std.specs.Prelude.{◌≤◌};

use super::prefix::Prefix;

#[derive(Clone, Copy, Debug, PartialEq, Eq)]
pub struct Outline {
    pub(crate) prefix: Prefix,
    pub(crate) clauses: usize,
    ghost counted: { clauses ≤ 2048 },
}

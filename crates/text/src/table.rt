// A formula as a table: its prefix by value, its clauses in lent cells.
ghost use Rattle.std.specs.Prelude.{◌≡◌, ◌≤◌, true, length, take};
ghost use Rattle.text.specs.Cells.{cuts, fits};

use super::prefix::Prefix;

mod laying;
mod questions;

// Clause j lies from the end before it to its own end, the first from 0.
#[derive(Drop)]
pub struct Table<'a> {
    prefix: Prefix,
    count: usize,
    literals: &'a [u16],
    ends: &'a [u16],
    ghost counted: { count ≤ 2048 },
    ghost held: { count ≤ length ends.now },
    ghost listed: { length (cuts literals.now 0 (take count ends.now)) ≡ count },
    ghost fit: { fits prefix.n literals.now 0 (take count ends.now) ≡ true },
}

// How far a text has been read.
ghost use Rattle.std.specs.Prelude.{◌≡◌, ◌≤◌, length};

use super::binding::Binding;

// which words have come: none, p, p cnf, p cnf n; then in a block, or behind the blocks that have ended
#[derive(Clone, Copy, Debug, PartialEq, Eq)]
pub enum Stage {
    Start,
    Problem,
    Format,
    Sized,
    // whether the block has no variable yet
    Block { vacant: bool },
    Matrix,
}

#[derive(Drop)]
pub struct State {
    pub stage: Stage,
    // the header's two numbers
    pub n: usize,
    pub m: usize,
    // the binding of each variable
    pub bindings: [Binding; 513],
    // that of the variables of the latest block: its level tells how many blocks have begun
    pub latest: Binding,
    // how many clauses have ended, how many literals stand in all, and how many behind the ended clauses
    pub clauses: usize,
    pub literals: usize,
    pub tail: usize,
    ghost bounded: { length bindings ≡ 513 },
    ghost few: { n ≤ 512 },
    ghost counted: { m ≤ 2048 },
    ghost short: { literals ≤ 16384 },
}

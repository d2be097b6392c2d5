// A shelf that is lent is a shelf, and so is one that is lent on.
use super::tools::{Answer, FULL, holds, keeps};
use cells::CellShelf;
use rows::RowShelf;
use shelf::Shelf;
use std::process::Abort;

const ROWS: &[(&[u16], Answer)] = &[(&[2, 4], Ok(0)), (&[2], Ok(1)), (&[3], FULL)];

// Clears the shelf and fills it.
fn fills<S: Shelf + Drop>(rt: &impl Abort, mut shelf: S) {
    shelf.clear();
    keeps(rt, &mut shelf, ROWS);
}

// Lends the shelf to be filled, and then holds what was kept.
fn lends<S: Shelf + Drop>(rt: &impl Abort, mut shelf: S) {
    fills(rt, &mut shelf);
    holds(rt, &shelf, ROWS);
}

// Lends the shelf to be lent on, twice.
fn lends_on<S: Shelf + Drop>(rt: &impl Abort, mut shelf: S) {
    lends(rt, &mut shelf);
    lends(rt, &mut shelf);
    holds(rt, &shelf, ROWS);
}

#[test]
fn lent(rt: HostRuntime) {
    lends_on(&rt, CellShelf::over(&mut [7; 5]));
    lends_on(&rt, RowShelf::over(&mut [7; 32]));
}

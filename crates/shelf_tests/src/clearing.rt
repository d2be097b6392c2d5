// A full shelf cleared, and used again.
use super::tools::{FULL, keeps};
use cells::CellShelf;
use rows::RowShelf;
use shelf::Shelf;
use std::process::Abort;

// There is room for a clause of two literals and one of one.
fn clears<S: Shelf>(rt: &impl Abort, shelf: &mut S) {
    shelf.clear();
    keeps(rt, shelf, &[(&[2, 4], Ok(0)), (&[2], Ok(1)), (&[3], FULL)]);
    shelf.clear();
    keeps(rt, shelf, &[(&[3], Ok(0)), (&[3, 5], Ok(1)), (&[2], FULL)]);
    shelf.clear();
    shelf.clear();
    keeps(rt, shelf, &[(&[2, 4], Ok(0))]);
}

#[test]
fn cleared(rt: HostRuntime) {
    clears(&rt, &mut CellShelf::over(&mut [7; 5]));
    clears(&rt, &mut RowShelf::over(&mut [7; 32]));
}

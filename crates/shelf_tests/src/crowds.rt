// As many clauses as there are lines, with memory for more.
use super::tools::{ABSENT, FULL, keep, shows};
use cells::CellShelf;
use rows::RowShelf;
use shelf::Shelf;
use std::process::Abort;
use std::test::Fail;

// The clause is kept 8,192 times, and not once more.
fn crowds<S: Shelf>(rt: &impl Abort, shelf: &mut S, codes: &[u16]) {
    for line in 0..8192 {
        assert_eq!(rt; keep(shelf, codes), Ok(line));
    }
    for _ in 0..2 {
        assert_eq!(rt; keep(shelf, codes), FULL);
        assert_eq!(rt; keep(shelf, &[]), FULL);
        assert_eq!(rt; S::count(shelf), 8192);
    }
    for line in 0..8192 {
        shows(rt, shelf, line, Ok(codes.len()), codes);
    }
    shows(rt, shelf, 8192, ABSENT, &[]);
    shelf.clear();
    assert_eq!(rt; keep(shelf, codes), Ok(0));
}

#[test]
fn crowded(rt: HostRuntime) -> Result<(), Fail> {
    let mut cells = vec![in rt.alloc(); 7u16; 16386]?;
    crowds(&rt, &mut CellShelf::over(&mut cells), &[]);
    crowds(&rt, &mut CellShelf::over(&mut cells), &[1025]);
    let mut words = vec![in rt.alloc(); 7u64; 131088]?;
    crowds(&rt, &mut RowShelf::over(&mut words), &[]);
    crowds(&rt, &mut RowShelf::over(&mut words), &[1025]);
    Ok(())
}

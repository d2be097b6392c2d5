// A case opened on a shelf that held clauses, closed and opened again; and as many lines as there can be.
use super::calls::axiom;
use super::grounds::read;
use super::replies::{FULL, line, open, refuted};
use super::shelves::keeps;
use case::{Call, Case};
use cells::CellShelf;
use formula::Formula;
use rows::RowShelf;
use shelf::{Clause, Shelf};
use std::process::Abort;
use std::test::Fail;
use text::Table;

// a clause of one literal, and the empty clause
const EASY: &str = "p cnf 1 2 e 1 0 -1 0 0";

// The shelf is cleared at each opening, and the formula comes back as it was.
fn reopens<F: Formula + Drop, S: Shelf + Drop>(
    rt: &impl Abort,
    ground: &str,
    formula: F,
    mut shelf: S,
) -> Result<(), Fail> {
    assert!(rt; shelf.keep(Clause::front(&[2, 5])).is_ok(), "{}", ground);
    assert!(rt; shelf.keep(Clause::front(&[])).is_ok(), "{}", ground);
    keeps(rt, ground, &shelf, &[&[1, -2], &[]])?;
    // a case that is refuted
    let mut case = Case::open(formula, shelf);
    assert_eq!(rt; case.answer(Call::Verdict), open(0), "{}", ground);
    assert_eq!(rt; case.answer(axiom(1)), line(0), "{}", ground);
    assert_eq!(rt; case.answer(Call::Verdict), refuted(1), "{}", ground);
    let (formula, shelf) = case.close();
    keeps(rt, ground, &shelf, &[&[]])?;
    // another, on what it gave back
    let mut case = Case::open(formula, shelf);
    assert_eq!(rt; case.answer(Call::Verdict), open(0), "{}", ground);
    assert_eq!(rt; case.answer(axiom(0)), line(0), "{}", ground);
    assert_eq!(rt; case.answer(Call::Verdict), open(1), "{}", ground);
    let (formula, shelf) = case.close();
    keeps(rt, ground, &shelf, &[&[-1]])?;
    assert_eq!(rt;
        (formula.variable_count(), formula.clause_count()),
        (1, 2),
        "{}",
        ground
    );
    assert_eq!(rt;
        (formula.clause_len(0), formula.literal(0, 0)),
        (1, 3),
        "{}",
        ground
    );
    assert_eq!(rt; formula.clause_len(1), 0, "{}", ground);
    Ok(())
}

// 8,192 claims are granted and no more, however much room there is.
fn fills<F: Formula + Drop, S: Shelf + Drop>(
    rt: &impl Abort,
    ground: &str,
    formula: F,
    shelf: S,
) -> Result<(), Fail> {
    let mut case = Case::open(formula, shelf);
    for i in 0..8192 {
        assert_eq!(rt; case.answer(axiom(0)), line(i), "{}", ground);
    }
    assert_eq!(rt; case.answer(axiom(0)), FULL, "{}", ground);
    assert_eq!(rt; case.answer(Call::Verdict), open(8192), "{}", ground);
    Ok(())
}

// On cells and on rows, for the one as few as can be, for the other more than can be used.
#[test]
fn opened(rt: HostRuntime) -> Result<(), Fail> {
    let mut literals = [0; 1];
    let mut ends = [0; 2];
    let outline = read(EASY, &mut literals, &mut ends)?;
    let table = Table::over(outline, &literals, &ends);
    reopens(&rt, "cells", table, CellShelf::over(&mut [0; 4]))?;
    let table = Table::over(outline, &literals, &ends);
    reopens(&rt, "rows", table, RowShelf::over(&mut [0; 32]))?;
    let mut cells = vec![in rt.alloc(); 0u16; 20000]?;
    let table = Table::over(outline, &literals, &ends);
    fills(&rt, "cells", table, CellShelf::over(&mut cells))?;
    let mut words = vec![in rt.alloc(); 0u64; 140000]?;
    let table = Table::over(outline, &literals, &ends);
    fills(&rt, "rows", table, RowShelf::over(&mut words))
}

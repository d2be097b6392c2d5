// What a shelf answers and holds, held to what it should.
use shelf::{Clause, Shelf, ShelfFault};
use std::array;
use std::process::Abort;

pub type Answer = Result<usize, ShelfFault>;

pub const FULL: Answer = Err(ShelfFault::Full);

pub const ABSENT: Answer = Err(ShelfFault::Absent);

// The literal of variable 1 + i, with either sign in turn: 2, 5, 6, 9 and so on.
pub(crate) fn literal(i: usize) -> u16 {
    let v = 1 + (i % 512) as u16;
    2 * v + (v + 1) % 2
}

// The clause of all 512 variables.
pub(crate) fn every_variable() -> [u16; 512] {
    array::from_fn(literal)
}

// What keeping the front of a list answers.
pub(crate) fn keep<S: Shelf>(shelf: &mut S, list: &[u16]) -> Answer {
    shelf.keep(Clause::front(list))
}

// What a place holds before a look: in each cell another number, and none that is a code.
fn mark(i: usize) -> u16 {
    3000 + (i % 512) as u16
}

// Looking at a line answers this; then these codes stand at the front of the place, and behind them what stood there before.
pub(crate) fn shows<S: Shelf>(
    rt: &impl Abort,
    shelf: &S,
    line: usize,
    answer: Answer,
    codes: &[u16],
) {
    let mut place = array::from_fn(mark);
    assert_eq!(rt; shelf.look(line, &mut place), answer);
    for (i, cell) in place.iter().enumerate() {
        assert_eq!(rt; *cell, codes.get(i).copied().unwrap_or(mark(i)));
    }
}

// The shelf holds the clauses of the rows that were kept, each as its line, and no others.
pub(crate) fn holds<S: Shelf>(rt: &impl Abort, shelf: &S, rows: &[(&[u16], Answer)]) {
    let mut next = 0;
    for (codes, answer) in rows {
        if let Ok(line) = *answer {
            shows(rt, shelf, line, Ok(codes.len()), *codes);
            next = line.saturating_add(1);
        }
    }
    assert_eq!(rt; shelf.count(), next);
    shows(rt, shelf, next, ABSENT, &[]);
    shows(rt, shelf, usize::MAX, ABSENT, &[]);
}

// The shelf is empty. Keeping the clause of each row answers what stands beside it, and after each the shelf holds those that were kept.
pub(crate) fn keeps<S: Shelf>(rt: &impl Abort, shelf: &mut S, rows: &[(&[u16], Answer)]) {
    holds(rt, shelf, &rows[..0]);
    for (i, (codes, answer)) in rows.iter().enumerate() {
        assert_eq!(rt; keep(shelf, *codes), *answer);
        holds(rt, shelf, &rows[..i + 1]);
    }
}

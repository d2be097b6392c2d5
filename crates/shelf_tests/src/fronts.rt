// The longest front of a list that is a clause.
use super::tools::{every_variable, keep, shows};
use cells::CellShelf;
use rows::RowShelf;
use shelf::{Clause, NoClause, Shelf};
use std::process::Abort;
use std::test::Fail;

// Of the list the front is kept.
fn keeps_front<S: Shelf>(rt: &impl Abort, shelf: &mut S, list: &[u16], front: &[u16]) {
    assert_eq!(rt; keep(shelf, list), Ok(0));
    shows(rt, shelf, 0, Ok(front.len()), front);
}

// A front ends before the first code whose variable is not above the one before, or is none from 1 to 512.
#[test]
fn longest(rt: HostRuntime) -> Result<(), Fail> {
    let rows: &[(&[u16], usize)] = &[
        // clauses
        (&[], 0),
        (&[2], 1),
        (&[3], 1),
        (&[1024], 1),
        (&[1025], 1),
        (&[2, 4, 6, 8], 4),
        (&[3, 4, 7, 1025], 4),
        // descending
        (&[4, 2], 1),
        (&[2, 6, 4, 8], 2),
        (&[1025, 3], 1),
        // a literal repeated
        (&[2, 2], 1),
        (&[2, 5, 5, 6], 2),
        // a literal and its negation, side by side and apart
        (&[2, 3], 1),
        (&[3, 2], 1),
        (&[2, 4, 5, 6], 2),
        (&[1024, 1025], 1),
        (&[2, 4, 3], 2),
        // codes of no variable
        (&[0], 0),
        (&[1], 0),
        (&[0, 2], 0),
        (&[2, 0, 4], 1),
        (&[2, 1, 4], 1),
        (&[1026], 0),
        (&[1027, 2], 0),
        (&[2, 1026], 1),
        (&[65535], 0),
    ];
    for (list, len) in rows {
        let front = list.get(0..*len).ok_or("too long")?;
        assert_eq!(rt; Clause::front(*list).codes(), front);
        let whole = Clause::try_from(*list).map(|clause| clause.codes());
        assert_eq!(rt;
            whole,
            if front.len() == list.len() {
                Ok(front)
            } else {
                Err(NoClause)
            }
        );
        keeps_front(&rt, &mut CellShelf::over(&mut [7; 5]), *list, front);
        keeps_front(&rt, &mut RowShelf::over(&mut [7; 16]), *list, front);
    }
    Ok(())
}

// All 512 variables are a clause, and no code may follow.
#[test]
fn all(rt: HostRuntime) {
    let all = every_variable();
    assert_eq!(rt; Clause::front(&all).codes(), &all[..]);
    for code in [0, 1, 2, 1024, 1025, 1026] {
        let mut list = [code; 513];
        list[..512].copy_from_slice(&all);
        assert_eq!(rt; Clause::front(&list).codes(), &all[..]);
    }
}

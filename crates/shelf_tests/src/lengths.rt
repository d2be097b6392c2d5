// Clauses from the shortest to the longest.
use super::tools::{Answer, FULL, every_variable, keep, shows};
use cells::CellShelf;
use rows::RowShelf;
use shelf::Shelf;
use std::process::Abort;
use std::test::Fail;

// Keeping a clause of the length of each row answers what stands beside it, and then those that were kept lie there.
fn takes<S: Shelf>(rt: &impl Abort, shelf: &mut S, rows: &[(usize, Answer)]) -> Result<(), Fail> {
    let all = every_variable();
    for (len, answer) in rows {
        assert_eq!(rt; keep(shelf, all.get(0..*len).ok_or("too long")?), *answer);
    }
    for (len, answer) in rows {
        if let Ok(line) = *answer {
            shows(
                rt,
                shelf,
                line,
                Ok(*len),
                all.get(0..*len).ok_or("too long")?,
            );
        }
    }
    Ok(())
}

// Over so many cells.
#[test]
fn in_cells(rt: HostRuntime) -> Result<(), Fail> {
    let table: &[(usize, &[(usize, Answer)])] = &[
        (1, &[(1, FULL), (0, Ok(0)), (0, FULL)]),
        (2, &[(2, FULL), (1, Ok(0)), (0, FULL)]),
        (512, &[(512, FULL), (511, Ok(0)), (0, FULL)]),
        (513, &[(512, Ok(0)), (0, FULL)]),
        (
            1029,
            &[
                (512, Ok(0)),
                (0, Ok(1)),
                (1, Ok(2)),
                (512, Ok(3)),
                (0, FULL),
            ],
        ),
    ];
    for (len, rows) in table {
        let mut cells = vec![in rt.alloc(); 7u16; *len]?;
        takes(&rt, &mut CellShelf::over(&mut cells), *rows)?;
    }
    Ok(())
}

// Over so many words.
#[test]
fn in_words(rt: HostRuntime) -> Result<(), Fail> {
    let table: &[(usize, &[(usize, Answer)])] = &[
        (16, &[(0, Ok(0)), (0, FULL)]),
        (16, &[(1, Ok(0)), (0, FULL)]),
        (16, &[(512, Ok(0)), (0, FULL)]),
        (
            64,
            &[
                (512, Ok(0)),
                (0, Ok(1)),
                (1, Ok(2)),
                (512, Ok(3)),
                (0, FULL),
            ],
        ),
    ];
    for (len, rows) in table {
        let mut words = vec![in rt.alloc(); 7u64; *len]?;
        takes(&rt, &mut RowShelf::over(&mut words), *rows)?;
    }
    Ok(())
}

// Shelves full to the cell and to the row. A refusal changes nothing, and a smaller clause may still fit.
use super::tools::{Answer, FULL, keeps};
use cells::CellShelf;
use rows::RowShelf;
use std::test::Fail;

// Over so many cells. A clause takes one, and one more for each literal.
#[test]
fn to_the_cell(rt: HostRuntime) -> Result<(), Fail> {
    let table: &[(usize, &[(&[u16], Answer)])] = &[
        (0, &[(&[], FULL), (&[2], FULL)]),
        (1, &[(&[2], FULL), (&[], Ok(0)), (&[], FULL)]),
        (2, &[(&[2, 4], FULL), (&[2], Ok(0)), (&[], FULL)]),
        // {1, 2}, {1} and {-1} take seven cells
        (
            4,
            &[
                (&[2, 4], Ok(0)),
                (&[2], FULL),
                (&[3], FULL),
                (&[], Ok(1)),
                (&[], FULL),
            ],
        ),
        (
            5,
            &[(&[2, 4], Ok(0)), (&[2], Ok(1)), (&[3], FULL), (&[], FULL)],
        ),
        (
            6,
            &[
                (&[2, 4], Ok(0)),
                (&[2], Ok(1)),
                (&[3], FULL),
                (&[], Ok(2)),
                (&[], FULL),
            ],
        ),
        (
            7,
            &[(&[2, 4], Ok(0)), (&[2], Ok(1)), (&[3], Ok(2)), (&[], FULL)],
        ),
        // and two clauses of seven literals sixteen
        (
            15,
            &[
                (&[2, 4, 6, 8, 10, 12, 14], Ok(0)),
                (&[3, 5, 7, 9, 11, 13, 15], FULL),
                (&[3, 5, 7, 9, 11, 13], Ok(1)),
                (&[], FULL),
            ],
        ),
        (
            16,
            &[
                (&[2, 4, 6, 8, 10, 12, 14], Ok(0)),
                (&[3, 5, 7, 9, 11, 13, 15], Ok(1)),
                (&[], FULL),
            ],
        ),
        (
            17,
            &[
                (&[2, 4, 6, 8, 10, 12, 14], Ok(0)),
                (&[3, 5, 7, 9, 11, 13, 15], Ok(1)),
                (&[2], FULL),
                (&[], Ok(2)),
                (&[], FULL),
            ],
        ),
    ];
    for (len, rows) in table {
        let mut cells = vec![in rt.alloc(); 7u16; *len]?;
        keeps(&rt, &mut CellShelf::over(&mut cells), *rows);
    }
    Ok(())
}

// Over so many words. A clause takes sixteen, whatever its length.
#[test]
fn to_the_row(rt: HostRuntime) -> Result<(), Fail> {
    let table: &[(usize, &[(&[u16], Answer)])] = &[
        (0, &[(&[], FULL), (&[2], FULL)]),
        (15, &[(&[], FULL), (&[2], FULL)]),
        (16, &[(&[], Ok(0)), (&[], FULL), (&[2], FULL)]),
        (17, &[(&[2, 4], Ok(0)), (&[], FULL), (&[2], FULL)]),
        (31, &[(&[2, 4], Ok(0)), (&[], FULL)]),
        (
            32,
            &[(&[2, 4], Ok(0)), (&[2], Ok(1)), (&[3], FULL), (&[], FULL)],
        ),
        (
            48,
            &[(&[2, 4], Ok(0)), (&[2], Ok(1)), (&[3], Ok(2)), (&[], FULL)],
        ),
    ];
    for (len, rows) in table {
        let mut words = vec![in rt.alloc(); 7u64; *len]?;
        keeps(&rt, &mut RowShelf::over(&mut words), *rows);
    }
    Ok(())
}

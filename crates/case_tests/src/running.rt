// Runs with fewer places than calls, as many, and more.
use super::calls::{axiom, reduction, resolution, symmetry};
use super::grounds::{PAIR, card, read};
use super::replies::{line, refuted};
use super::tables::runs;
use case::{Call, Reply};
use cells::CellShelf;
use std::test::Fail;
use text::Table;

// Calls that have no place are not made, and places that have no call keep what they held.
#[test]
fn places(rt: HostRuntime) -> Result<(), Fail> {
    let negating = card(&[(1, 3), (2, 5)])?;
    let rows: &[(Call, Reply)] = &[
        (axiom(0), line(0)),
        (reduction(0, 2), line(1)),
        (symmetry(1, negating), line(2)),
        (resolution(1, 2, 1), line(3)),
        (Call::Verdict, refuted(4)),
    ];
    let lengths: &[(usize, &[&[i32]])] = &[
        (0, &[]),
        (1, &[&[1, 2]]),
        (3, &[&[1, 2], &[1], &[-1]]),
        (5, &[&[1, 2], &[1], &[-1], &[]]),
        (7, &[&[1, 2], &[1], &[-1], &[]]),
    ];
    let mut literals = [0; 4];
    let mut ends = [0; 2];
    let outline = read(PAIR, &mut literals, &mut ends)?;
    for (places, clauses) in lengths {
        let table = Table::over(outline, &literals, &ends);
        let mut cells = [0; 8];
        runs(
            &rt,
            rt.alloc(),
            "a table on cells",
            table,
            CellShelf::over(&mut cells),
            rows,
            *places,
            *clauses,
        )?;
    }
    // no calls at all
    runs(
        &rt,
        rt.alloc(),
        "no calls",
        Table::over(outline, &literals, &ends),
        CellShelf::over(&mut [0; 8]),
        &[],
        2,
        &[],
    )
}

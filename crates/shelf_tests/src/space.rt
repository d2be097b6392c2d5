// What there is space for, at the edges, and that just this is kept.
use super::tools::{every_variable, keep};
use cells::CellShelf;
use rows::RowShelf;
use shelf::Shelf;
use std::test::Fail;

const MAX: usize = usize::MAX;

// Whether the clause is kept so many times, from an empty shelf.
fn takes<S: Shelf>(shelf: &mut S, clauses: usize, codes: &[u16]) -> bool {
    (0..clauses).all(|line| keep(shelf, codes) == Ok(line))
}

// Whether so many cells have space for so many clauses of so many literals each.
#[test]
fn of_cells(rt: HostRuntime) -> Result<(), Fail> {
    let table: &[(usize, usize, usize, bool)] = &[
        // no clause takes no cell
        (0, 0, 0, true),
        (0, 0, MAX, true),
        (0, 1, 0, false),
        (0, MAX, MAX, false),
        // just enough cells, and one less
        (1, 1, 0, true),
        (1, 1, 1, false),
        (1, 2, 0, false),
        (6, 2, 2, true),
        (5, 2, 2, false),
        (6, 3, 1, true),
        (6, 2, 3, false),
        (513, 1, 512, true),
        (512, 1, 512, false),
        // 8,192 clauses, and one more
        (8192, 8192, 0, true),
        (8191, 8192, 0, false),
        (8193, 8193, 0, false),
        (16384, 8192, 1, true),
        (16383, 8192, 1, false),
        (16386, 8193, 1, false),
        // cells that are too many to count, and a number of them that is 0 in 64 bits
        (8192, 1, MAX, false),
        (8192, 2, MAX, false),
        (8192, 8192, MAX, false),
        (8192, 8192, 0x7_ffff_ffff_ffff, false),
        (8192, MAX, 0, false),
        (8192, MAX, MAX, false),
    ];
    let all = every_variable();
    for (len, clauses, literals, expected) in table {
        let mut cells = vec![in rt.alloc(); 7u16; *len]?;
        let mut shelf = CellShelf::over(&mut cells);
        assert_eq!(rt; shelf.has_space(*clauses, *literals), *expected);
        if let Some(codes) = all.get(0..*literals) {
            assert_eq!(rt; takes(&mut shelf, *clauses, codes), *expected);
        }
        // whatever is kept
        assert_eq!(rt; shelf.has_space(*clauses, *literals), *expected);
    }
    Ok(())
}

// Whether so many words have.
#[test]
fn of_words(rt: HostRuntime) -> Result<(), Fail> {
    let table: &[(usize, usize, usize, bool)] = &[
        // no clause takes no word
        (0, 0, 0, true),
        (0, 0, MAX, true),
        (0, 1, 0, false),
        (0, MAX, MAX, false),
        // just enough words, and one less
        (15, 0, 0, true),
        (15, 1, 0, false),
        (16, 1, 0, true),
        (16, 1, 512, true),
        (16, 1, MAX, true),
        (16, 2, 0, false),
        (17, 1, 1, true),
        (17, 2, 1, false),
        (31, 2, 0, false),
        (32, 2, 512, true),
        // 8,192 clauses, and one more
        (131072, 8192, 1, true),
        (131072, 8192, MAX, true),
        (131071, 8192, 1, false),
        (131088, 8193, 0, false),
        (131088, MAX, 0, false),
        (131088, MAX, MAX, false),
    ];
    let all = every_variable();
    for (len, clauses, literals, expected) in table {
        let mut words = vec![in rt.alloc(); 7u64; *len]?;
        let mut shelf = RowShelf::over(&mut words);
        assert_eq!(rt; shelf.has_space(*clauses, *literals), *expected);
        if let Some(codes) = all.get(0..*literals) {
            assert_eq!(rt; takes(&mut shelf, *clauses, codes), *expected);
        }
        // whatever is kept
        assert_eq!(rt; shelf.has_space(*clauses, *literals), *expected);
    }
    Ok(())
}

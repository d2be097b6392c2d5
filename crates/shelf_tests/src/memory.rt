// Memory that holds anything before a shelf is laid over it.
use super::tools::{Answer, keeps};
use cells::CellShelf;
use rows::RowShelf;
use shelf::Shelf;

const ROWS: &[(&[u16], Answer)] = &[
    (&[], Ok(0)),
    (&[2, 4, 1025], Ok(1)),
    (&[3], Ok(2)),
    (&[], Ok(3)),
    (&[1024], Ok(4)),
];

// No clause is kept at first, and then those that were kept.
#[test]
fn garbage(rt: HostRuntime) {
    for cell in [0, 1, 2, 512, 513, 65535] {
        keeps(&rt, &mut CellShelf::over(&mut [cell; 12]), ROWS);
    }
    for word in [0, 1, 3, u64::MAX] {
        keeps(&rt, &mut RowShelf::over(&mut [word; 80]), ROWS);
    }
}

// The clauses of another shelf are garbage too, and a shelf laid over them does not change them.
#[test]
fn again(rt: HostRuntime) {
    let mut cells = [7; 12];
    keeps(&rt, &mut CellShelf::over(&mut cells), ROWS);
    assert_eq!(rt; CellShelf::over(&mut cells).count(), 0);
    assert_eq!(rt; &cells[..], &[0, 3, 2, 4, 1025, 1, 3, 0, 1, 1024, 7, 7][..]);
    keeps(&rt, &mut CellShelf::over(&mut cells), ROWS);
    let mut words = [7; 80];
    keeps(&rt, &mut RowShelf::over(&mut words), ROWS);
    assert_eq!(rt; RowShelf::over(&mut words).count(), 0);
    keeps(&rt, &mut RowShelf::over(&mut words), ROWS);
}

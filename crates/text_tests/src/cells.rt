// What all cells hold once a text was read.
use super::tools::{EXAMPLE, refuses, tidies};
use std::test::Fail;

// Codes and running counts, then zeros; after a refusal nothing but zeros.
#[test]
fn held(rt: HostRuntime) -> Result<(), Fail> {
    let heap = rt.alloc();
    let rows: &[(&str, &[u16], &[u16])] = &[
        // exactly enough cells, and more
        (EXAMPLE, &[2, 4, 3, 5], &[2, 4]),
        (EXAMPLE, &[2, 4, 3, 5, 0, 0], &[2, 4, 0]),
        ("p cnf 1 3 e 1 0 0 1 0 0", &[2, 0], &[0, 1, 1, 0]),
        // a literal cell too few, an end cell too few, none at all
        (EXAMPLE, &[0, 0, 0], &[0, 0]),
        (EXAMPLE, &[0, 0, 0, 0], &[0]),
        (EXAMPLE, &[], &[]),
        // a fault at the end of the text
        ("p cnf 2 2 e 1 2 0 1 2 0 -1 -2", &[0, 0, 0, 0], &[0, 0]),
    ];
    for (text, codes, counts) in rows {
        let mut literals = vec![in heap; 7u16; codes.len()]?;
        let mut ends = vec![in heap; 7u16; counts.len()]?;
        let _ = text::read(text.as_bytes(), &mut literals, &mut ends);
        assert_eq!(rt; literals.as_slice(), *codes, "{}", *text);
        assert_eq!(rt; ends.as_slice(), *counts, "{}", *text);
    }
    Ok(())
}

// With just enough cells the example is read; with one less it is refused where that one is wanted.
#[test]
fn enough(rt: HostRuntime) -> Result<(), Fail> {
    let heap = rt.alloc();
    tidies(&rt, heap, 4, 2, EXAMPLE, EXAMPLE)?;
    refuses(&rt, heap, 3, 2, EXAMPLE, 13, 31)?;
    refuses(&rt, heap, 4, 1, EXAMPLE, 13, 8)
}

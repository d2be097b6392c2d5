// What comes of a text, held to what should.
use std::alloc::Global;
use std::process::Abort;
use std::test::Fail;

// some 1, all 2: (1 or 2) and (not 1 or not 2)
pub const EXAMPLE: &str = "p cnf 2 2\ne 1 0\na 2 0\n1 2 0\n-1 -2 0\n";

// With so many literal cells and end cells, the text is tidied to the other.
pub(crate) fn tidies(
    rt: &impl Abort,
    heap: Global,
    cells: usize,
    ends: usize,
    text: &str,
    expected: &str,
) -> Result<(), Fail> {
    let mut literals = vec![in heap; 7u16; cells]?;
    let mut ends = vec![in heap; 7u16; ends]?;
    let mut out = vec![in heap; 7u8; 90127]?;
    let len = tidying::tidy(text.as_bytes(), &mut literals, &mut ends, &mut out).unwrap();
    assert_eq!(rt; &out[0..len], expected.as_bytes(), "{}", text);
    Ok(())
}

// With so many cells, the text is refused by this rule at this byte.
pub(crate) fn refuses(
    rt: &impl Abort,
    heap: Global,
    cells: usize,
    ends: usize,
    text: &str,
    rule: usize,
    byte: usize,
) -> Result<(), Fail> {
    let line = format!(in heap; "refused {rule} layer text byte {byte} line 0\n")?;
    tidies(rt, heap, cells, ends, text, line.as_str())
}

// Each text is tidied to the one beside it.
pub(crate) fn all_tidy(rt: &impl Abort, heap: Global, rows: &[(&str, &str)]) -> Result<(), Fail> {
    for (text, expected) in rows {
        tidies(rt, heap, 64, 16, *text, *expected)?;
    }
    Ok(())
}

// With so many cells, each text is refused by the rule and at the byte beside it.
pub(crate) fn all_refuse(
    rt: &impl Abort,
    heap: Global,
    cells: usize,
    ends: usize,
    rows: &[(&str, usize, usize)],
) -> Result<(), Fail> {
    for (text, rule, byte) in rows {
        refuses(rt, heap, cells, ends, *text, *rule, *byte)?;
    }
    Ok(())
}

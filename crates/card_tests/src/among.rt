// Which lists of codes are, as sets, clauses of the formula of a text.
use super::tools::read;
use std::process::Abort;
use std::test::Fail;
use symmetry::is_among;
use text::Table;

// Whether each list is among the clauses of the formula of the text is as told beside it.
fn all_among(rt: &impl Abort, text: &str, rows: &[(&[u16], bool)]) -> Result<(), Fail> {
    let mut literals = [0; 16];
    let mut ends = [0; 8];
    let outline = read(text, &mut literals, &mut ends)?;
    let table = Table::over(outline, &literals, &ends);
    for (codes, expected) in rows {
        assert_eq!(rt; is_among(&table, *codes), *expected, "{}", text);
    }
    Ok(())
}

// Order and repetition do not matter, neither in the list nor in the clause; every literal does.
#[test]
fn sets(rt: HostRuntime) -> Result<(), Fail> {
    let rows: &[(&[u16], bool)] = &[
        (&[2, 4], true),
        (&[4, 2], true),
        (&[4, 2, 4, 4, 2], true),
        (&[3], true),
        (&[3, 3, 3], true),
        (&[7, 5, 2], true),
        // a part of a clause, more than a clause, parts of two clauses
        (&[2], false),
        (&[4], false),
        (&[2, 5], false),
        (&[2, 4, 6], false),
        (&[2, 4, 5, 7], false),
        (&[3, 4], false),
        (&[], false),
        // another sign, another variable
        (&[2, 5], false),
        (&[6], false),
        (&[1025], false),
        // a code of no literal
        (&[0], false),
        (&[1], false),
        (&[2, 4, 0], false),
        (&[2, 4, 1], false),
        (&[2, 4, 1026], false),
        (&[3, 65535], false),
    ];
    // the first and the third clause are the same set
    all_among(
        &rt,
        "p cnf 3 4 e 1 2 3 0 1 2 2 1 0 -1 0 2 1 0 1 -2 -3 -2 0",
        rows,
    )
}

// Tautological clauses and empty ones are clauses as the others are.
#[test]
fn odd_clauses(rt: HostRuntime) -> Result<(), Fail> {
    let rows: &[(&[u16], bool)] = &[
        (&[2, 3], true),
        (&[3, 2, 3], true),
        (&[2], false),
        (&[3], false),
        (&[2, 3, 4], false),
        (&[], true),
        (&[4], true),
    ];
    all_among(&rt, "p cnf 2 4 e 1 2 0 1 -1 1 0 0 2 0 0", rows)
}

// Where there are no clauses, not even the empty list is among them; where the only one is empty, nothing else is.
#[test]
fn few_clauses(rt: HostRuntime) -> Result<(), Fail> {
    all_among(&rt, "p cnf 1 0 e 1 0", &[(&[], false), (&[2], false)])?;
    all_among(&rt, "p cnf 1 1 e 1 0 0", &[(&[], true), (&[2], false)])
}

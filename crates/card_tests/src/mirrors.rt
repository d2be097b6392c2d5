// Texts mirrored: the formula with every literal negated, or the line of the first fault.
use mirroring::mirror;
use std::process::Abort;
use std::test::Fail;

// The text is mirrored to the other, in a buffer of dots that holds dots behind it.
fn mirrors(rt: &impl Abort, text: &str, expected: &str) -> Result<(), Fail> {
    let mut out = [b'.'; 64];
    let len = mirror(text.as_bytes(), &mut [7; 6], &mut [7; 4], &mut out)
        .ok()
        .ok_or("cramped")?;
    assert_eq!(rt; out.get(0..len), Some(expected.as_bytes()), "{}", text);
    assert_eq!(rt; out.get(len).copied(), Some(b'.'), "{}", text);
    Ok(())
}

// Signs change, and nothing else: neither the prefix nor the order of literals and clauses.
#[test]
fn formulas(rt: HostRuntime) -> Result<(), Fail> {
    let rows: &[(&str, &str)] = &[
        (
            "p cnf 2 2 e 1 0 a 2 0 1 2 0 -1 -2 0",
            "p cnf 2 2\ne 1 0\na 2 0\n-1 -2 0\n1 2 0\n",
        ),
        ("p cnf 1 0 a 1 0", "p cnf 1 0\na 1 0\n"),
        ("p cnf 1 2 e 1 0 0 0", "p cnf 1 2\ne 1 0\n0\n0\n"),
        (
            "p cnf 3 2 e 3 1 2 0 3 -1 3 0 2 -2 0",
            "p cnf 3 2\ne 1 2 3 0\n-3 1 -3 0\n-2 2 0\n",
        ),
    ];
    for (text, expected) in rows {
        mirrors(&rt, *text, *expected)?;
    }
    Ok(())
}

// The first fault of a text is reported as when the text is tidied.
#[test]
fn faults(rt: HostRuntime) -> Result<(), Fail> {
    let rows: &[(&str, &str)] = &[
        ("", "refused 12 layer text byte 0 line 0\n"),
        (
            "p cnf 1 1 e 1 0 x",
            "refused 11 layer text byte 16 line 0\n",
        ),
        ("p cnf 1 5 e 1 0", "refused 13 layer text byte 8 line 0\n"),
        (
            "p cnf 2 1 e 1 0 1 0",
            "refused 14 layer text byte 16 line 0\n",
        ),
        (
            "p cnf 1 1 e 1 0 1",
            "refused 15 layer text byte 17 line 0\n",
        ),
    ];
    for (text, expected) in rows {
        mirrors(&rt, *text, *expected)?;
    }
    Ok(())
}

// The cells hold the formula as it was read, and a buffer that is too short by a byte stays as it was.
#[test]
fn memory(rt: HostRuntime) -> Result<(), Fail> {
    let text = "p cnf 1 2 e 1 0 1 -1 0 1 0";
    let rows: &[(usize, Option<usize>, u8)] = &[
        (0, None, b'.'),
        (27, None, b'.'),
        (28, Some(28), b'p'),
        (30, Some(28), b'p'),
    ];
    for (room, len, first) in rows {
        let mut literals = [7; 4];
        let mut ends = [7; 3];
        let mut out = [b'.'; 30];
        let lent = out.get_mut(0..*room).ok_or("too long")?;
        assert_eq!(rt;
            mirror(text.as_bytes(), &mut literals, &mut ends, lent).ok(),
            *len
        );
        assert_eq!(rt; literals, [2, 3, 2, 0]);
        assert_eq!(rt; ends, [2, 3, 0]);
        assert_eq!(rt; out[0], *first);
    }
    Ok(())
}

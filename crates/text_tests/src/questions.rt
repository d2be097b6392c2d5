// A table's answers, also where there is nothing to ask after.
use super::tools::EXAMPLE;
use formula::{Formula, Quantifier};
use std::process::Abort;
use std::test::Fail;
use text::{Outline, Table};

// The outline of the example.
fn outline() -> Result<Outline, Fail> {
    text::read(EXAMPLE.as_bytes(), &mut [0; 4], &mut [0; 2]).map_err(|_| Fail::new("refused"))
}

// The table has the example's prefix, so many clauses, and of clause j this length and this code at place i.
fn answers(rt: &impl Abort, table: &Table, count: usize, rows: &[(usize, usize, usize, u16)]) {
    let prefix: &[(usize, u16, Option<Quantifier>)] = &[
        (0, 0, None),
        (1, 1, Some(Quantifier::Exists)),
        (2, 2, Some(Quantifier::Forall)),
        (3, 0, None),
        (513, 0, None),
    ];
    assert_eq!(rt; (table.variable_count(), table.clause_count()), (2, count));
    for (v, level, quantifier) in prefix {
        assert_eq!(rt;
            (table.level(*v), table.quantifier(*v)),
            (*level, *quantifier)
        );
    }
    for (j, i, len, code) in rows {
        assert_eq!(rt;
            (table.clause_len(*j), table.literal(*j, *i)),
            (*len, *code)
        );
    }
}

// Beyond the variables, the clauses and their places every answer is 0.
#[test]
fn beyond(rt: HostRuntime) -> Result<(), Fail> {
    let table = Table::over(outline()?, &[2, 4, 3, 5, 2], &[2, 4, 5]);
    let rows: &[(usize, usize, usize, u16)] = &[
        (0, 0, 2, 2),
        (0, 1, 2, 4),
        (0, 2, 2, 0),
        (1, 0, 2, 3),
        (1, 1, 2, 5),
        (1, 2, 2, 0),
        (2, 0, 0, 0),
        (2048, 16384, 0, 0),
    ];
    answers(&rt, &table, 2, rows);
    Ok(())
}

// A table over cells that do not fit its outline has no clauses.
#[test]
fn misfits(rt: HostRuntime) -> Result<(), Fail> {
    let outline = outline()?;
    let rows: &[(&[u16], &[u16])] = &[
        // too few cells
        (&[], &[]),
        (&[2, 4, 3], &[2, 4]),
        (&[2, 4, 3, 5], &[2]),
        // ends that descend
        (&[2, 4, 3, 5], &[4, 2]),
        // codes of no variable
        (&[2, 4, 3, 6], &[2, 4]),
        (&[1, 4, 3, 5], &[2, 4]),
    ];
    for (literals, ends) in rows {
        let table = Table::over(outline, *literals, *ends);
        answers(&rt, &table, 0, &[(0, 0, 0, 0), (1, 0, 0, 0)]);
    }
    Ok(())
}

// Which cards are symmetries of the formula of a text, and why others are none.
use super::tools::{card, read};
use std::process::Abort;
use std::test::Fail;
use symmetry::{SymmetryFault, carries, check_symmetry, is_admissible, is_symmetry};
use text::Table;

// some 1, all 2: (1 or 2) and (not 1 or not 2)
const EXAMPLE: &str = "p cnf 2 2 e 1 0 a 2 0 1 2 0 -1 -2 0";

// What the check answers of a card.
type Answer = Result<(), SymmetryFault>;

// Whether the card of the pairs is admissible for the formula of the text, whether it takes clauses to clauses, and what the check answers.
fn judges(
    rt: &impl Abort,
    text: &str,
    pairs: &[(u16, u16)],
    admissible: bool,
    carried: bool,
    answer: Answer,
) -> Result<(), Fail> {
    let mut literals = [0; 16];
    let mut ends = [0; 8];
    let outline = read(text, &mut literals, &mut ends)?;
    let table = Table::over(outline, &literals, &ends);
    let card = card(pairs)?;
    assert_eq!(rt; is_admissible(&table, &card), admissible, "{}", text);
    assert_eq!(rt; carries(&table, &card), carried, "{}", text);
    assert_eq!(rt;
        is_symmetry(&table, &card),
        admissible && carried,
        "{}",
        text
    );
    assert_eq!(rt; check_symmetry(&table, &card), answer, "{}", text);
    Ok(())
}

// Cards of the example.
#[test]
fn small(rt: HostRuntime) -> Result<(), Fail> {
    let rows: &[(&[(u16, u16)], bool, bool, Answer)] = &[
        (&[], true, true, Ok(())),
        (&[(1, 3), (2, 5)], true, true, Ok(())),
        (&[(1, 3)], true, false, Err(SymmetryFault::Asymmetry)),
        (&[(2, 5)], true, false, Err(SymmetryFault::Asymmetry)),
        // admissible or not decides first
        (&[(1, 4), (2, 2)], false, true, Err(SymmetryFault::Level)),
        (&[(1, 5), (2, 2)], false, false, Err(SymmetryFault::Level)),
        // what is no variable
        (&[(3, 6)], true, true, Ok(())),
        (&[(3, 7)], false, true, Err(SymmetryFault::Level)),
        (&[(1, 6), (3, 2)], false, false, Err(SymmetryFault::Level)),
    ];
    for (pairs, admissible, carried, answer) in rows {
        judges(&rt, EXAMPLE, *pairs, *admissible, *carried, *answer)?;
    }
    Ok(())
}

// The exchange of 1 and 2, over clauses of one level.
#[test]
fn exchanges(rt: HostRuntime) -> Result<(), Fail> {
    let rows: &[(&str, bool, Answer)] = &[
        ("p cnf 2 0 e 1 2 0", true, Ok(())),
        ("p cnf 2 1 e 1 2 0 0", true, Ok(())),
        ("p cnf 2 1 e 1 2 0 1 2 0", true, Ok(())),
        ("p cnf 2 2 e 1 2 0 1 0 2 0", true, Ok(())),
        // literals and clauses repeated, as sets
        ("p cnf 2 2 e 1 2 0 1 1 0 2 0", true, Ok(())),
        ("p cnf 2 3 e 1 2 0 1 0 2 0 1 0", true, Ok(())),
        // tautological clauses
        ("p cnf 2 1 e 1 2 0 1 -1 2 -2 0", true, Ok(())),
        ("p cnf 2 2 e 1 2 0 1 -1 0 -2 2 0", true, Ok(())),
        (
            "p cnf 2 1 e 1 2 0 1 -1 0",
            false,
            Err(SymmetryFault::Asymmetry),
        ),
        // the image of the first clause, or of the last, is none
        (
            "p cnf 2 1 e 1 2 0 1 0",
            false,
            Err(SymmetryFault::Asymmetry),
        ),
        (
            "p cnf 2 3 e 1 2 0 1 0 2 0 -1 0",
            false,
            Err(SymmetryFault::Asymmetry),
        ),
        (
            "p cnf 2 3 e 1 2 0 -1 0 2 0 1 0",
            false,
            Err(SymmetryFault::Asymmetry),
        ),
        // it is a part of a clause, or more than one
        (
            "p cnf 2 2 e 1 2 0 1 0 1 2 0",
            false,
            Err(SymmetryFault::Asymmetry),
        ),
        (
            "p cnf 2 2 e 1 2 0 1 0 2 -2 0",
            false,
            Err(SymmetryFault::Asymmetry),
        ),
    ];
    for (text, carried, answer) in rows {
        judges(&rt, *text, &[(1, 4), (2, 2)], true, *carried, *answer)?;
    }
    Ok(())
}

// Three variables in a ring, turned one way, the other, and with one sign changed.
#[test]
fn ring(rt: HostRuntime) -> Result<(), Fail> {
    let text = "p cnf 3 3 e 1 2 3 0 1 -2 0 2 -3 0 3 -1 0";
    let rows: &[(&[(u16, u16)], bool, Answer)] = &[
        (&[(1, 4), (2, 6), (3, 2)], true, Ok(())),
        (&[(1, 6), (2, 2), (3, 4)], true, Ok(())),
        (&[(1, 7), (2, 5), (3, 3)], true, Ok(())),
        (
            &[(1, 5), (2, 6), (3, 2)],
            false,
            Err(SymmetryFault::Asymmetry),
        ),
        (&[(1, 4), (2, 2)], false, Err(SymmetryFault::Asymmetry)),
    ];
    for (pairs, carried, answer) in rows {
        judges(&rt, text, *pairs, true, *carried, *answer)?;
    }
    Ok(())
}

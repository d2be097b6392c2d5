// Which cards are admissible for the formula of a text.
use super::tools::{card, read};
use std::alloc::{AllocError, Global};
use std::process::Abort;
use std::test::Fail;
use symmetry::is_admissible;
use text::Table;

// three levels, of two variables, two variables and one
const LEVELS: &str = "p cnf 5 0 e 1 3 0 a 2 4 0 e 5 0";

// Whether the card of the pairs is admissible for the formula of the text is as told.
fn admits(rt: &impl Abort, text: &str, pairs: &[(u16, u16)], expected: bool) -> Result<(), Fail> {
    let outline = read(text, &mut [], &mut [])?;
    let table = Table::over(outline, &[], &[]);
    let card = card(pairs)?;
    assert_eq!(rt; is_admissible(&table, &card), expected);
    Ok(())
}

// Each variable stays in its level, be it negated or not.
#[test]
fn levels(rt: HostRuntime) -> Result<(), Fail> {
    let rows: &[(&[(u16, u16)], bool)] = &[
        (&[], true),
        (&[(1, 3)], true),
        (&[(1, 3), (2, 5), (3, 7), (4, 9), (5, 11)], true),
        (&[(1, 6), (3, 2)], true),
        (&[(1, 7), (2, 8), (3, 3), (4, 5)], true),
        // from one level to another: with another quantifier, and with the same
        (&[(1, 4), (2, 2)], false),
        (&[(4, 10), (5, 8)], false),
        (&[(1, 10), (5, 2)], false),
        // one exchange keeps its level, the other does not
        (&[(1, 6), (2, 10), (3, 2), (5, 4)], false),
        // through another level and back
        (&[(1, 4), (2, 6), (3, 2)], false),
    ];
    for (pairs, expected) in rows {
        admits(&rt, LEVELS, *pairs, *expected)?;
    }
    Ok(())
}

// What is no variable of the formula stays; pairs may name it.
#[test]
fn above(rt: HostRuntime) -> Result<(), Fail> {
    let rows: &[(&[(u16, u16)], bool)] = &[
        (&[(6, 12)], true),
        (&[(1, 3), (6, 12), (512, 1024)], true),
        (&[(6, 13)], false),
        (&[(512, 1025)], false),
        (&[(6, 14), (7, 12)], false),
        (&[(511, 1024), (512, 1022)], false),
        // a variable and what is none, exchanged
        (&[(1, 12), (6, 2)], false),
        (&[(5, 12), (6, 10)], false),
    ];
    for (pairs, expected) in rows {
        admits(&rt, LEVELS, *pairs, *expected)?;
    }
    Ok(())
}

// A formula of 512 variables and no clauses: all but the last in one level, and the last behind a word that may begin another.
fn longest(heap: Global, behind: &str) -> Result<String, AllocError> {
    let mut text = format!(in heap; "p cnf 512 0 e")?;
    for v in 1..512 {
        text.push_str(format!(in heap; " {v}")?.as_str())?;
    }
    text.push_str(behind)?;
    text.push_str(" 512 0")?;
    Ok(text)
}

// With 512 variables there is none above; the last is held to its level as the others are.
#[test]
fn all_variables(rt: HostRuntime) -> Result<(), Fail> {
    let rows: &[(&[(u16, u16)], bool, bool)] = &[
        (&[], true, true),
        (&[(512, 1025)], true, true),
        (&[(1, 1022), (511, 2)], true, true),
        (&[(1, 1024), (512, 2)], true, false),
        (&[(511, 1024), (512, 1022)], true, false),
    ];
    let one = longest(rt.alloc(), "")?;
    let two = longest(rt.alloc(), " 0 a")?;
    for (pairs, in_one, in_two) in rows {
        admits(&rt, one.as_str(), *pairs, *in_one)?;
        admits(&rt, two.as_str(), *pairs, *in_two)?;
    }
    // every variable goes to the negation of the one as far from the other end
    let mut pairs = Vec::new(rt.alloc());
    for v in 1..513u16 {
        pairs.push((v, 2 * (513 - v) + 1))?;
    }
    admits(&rt, one.as_str(), &pairs, true)?;
    admits(&rt, two.as_str(), &pairs, false)
}

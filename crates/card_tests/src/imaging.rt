// Images of the formula of a text, and images of images.
use super::tools::{card, read};
use cards::Card;
use formula::{Formula, Quantifier};
use images::Image;
use std::process::Abort;
use std::test::Fail;
use text::Table;

// some 1 and 3, all 2: (1 or 2 or not 3 or 1), nothing, and (not 1 or not 2)
const EXAMPLE: &str = "p cnf 3 3 e 1 3 0 a 2 0 1 2 -3 1 0 0 -1 -2 0";

const CLAUSES: &[&[u16]] = &[&[2, 4, 7, 2], &[], &[3, 5]];

// The formula has the example's prefix and these clauses; beyond them there is no quantifier, and every other answer is 0.
fn answers<F: Formula>(rt: &impl Abort, f: &F, clauses: &[&[u16]]) -> Result<(), Fail> {
    let prefix: &[(usize, u16, Option<Quantifier>)] = &[
        (0, 0, None),
        (1, 1, Some(Quantifier::Exists)),
        (2, 2, Some(Quantifier::Forall)),
        (3, 1, Some(Quantifier::Exists)),
        (4, 0, None),
        (513, 0, None),
    ];
    assert_eq!(rt; f.variable_count(), 3);
    for (v, level, quantifier) in prefix {
        assert_eq!(rt; (f.level(*v), f.quantifier(*v)), (*level, *quantifier));
    }
    assert_eq!(rt; f.clause_count(), clauses.len());
    for (j, clause) in clauses.iter().enumerate() {
        assert_eq!(rt; f.clause_len(j), clause.len());
        for (i, code) in clause.iter().enumerate() {
            assert_eq!(rt; f.literal(j, i), *code);
        }
        assert_eq!(rt; f.literal(j, clause.len()), 0);
    }
    assert_eq!(rt; f.clause_len(clauses.len()), 0);
    assert_eq!(rt; f.literal(clauses.len(), 0), 0);
    Ok(())
}

// The image under the card has these clauses.
fn image_answers<F: Formula + Drop>(
    rt: &impl Abort,
    f: F,
    card: Card,
    clauses: &[&[u16]],
) -> Result<(), Fail> {
    let image = Image::new(f, card).ok().ok_or("inadmissible")?;
    answers(rt, &image, clauses)
}

// The image, under the second card, of the image under the first has these clauses.
fn nested_answers<F: Formula + Drop>(
    rt: &impl Abort,
    f: F,
    first: Card,
    second: Card,
    clauses: &[&[u16]],
) -> Result<(), Fail> {
    let image = Image::new(f, first).ok().ok_or("inadmissible")?;
    image_answers(rt, image, second, clauses)
}

// There is no image under the card, and the formula that comes back has these clauses.
fn comes_back<F: Formula + Drop>(
    rt: &impl Abort,
    f: F,
    card: Card,
    clauses: &[&[u16]],
) -> Result<(), Fail> {
    let refused = Image::new(f, card).err().ok_or("admissible")?;
    answers(rt, &refused.below, clauses)
}

// Under the first card there is an image; that image has none under the second, and comes back with these clauses.
fn image_comes_back<F: Formula + Drop>(
    rt: &impl Abort,
    f: F,
    first: Card,
    second: Card,
    clauses: &[&[u16]],
) -> Result<(), Fail> {
    let image = Image::new(f, first).ok().ok_or("inadmissible")?;
    comes_back(rt, image, second, clauses)
}

// The image under a card: each literal in its place goes to its image.
#[test]
fn once(rt: HostRuntime) -> Result<(), Fail> {
    let mut literals = [0; 8];
    let mut ends = [0; 4];
    let outline = read(EXAMPLE, &mut literals, &mut ends)?;
    let table = Table::over(outline, &literals, &ends);
    answers(&rt, &table, CLAUSES)?;
    let rows: &[(&[(u16, u16)], &[&[u16]])] = &[
        (&[], CLAUSES),
        (&[(4, 8), (512, 1024)], CLAUSES),
        (&[(1, 3)], &[&[3, 4, 7, 3], &[], &[2, 5]]),
        (&[(1, 3), (2, 5), (3, 7)], &[&[3, 5, 6, 3], &[], &[2, 4]]),
        (&[(1, 7), (3, 2)], &[&[7, 4, 3, 7], &[], &[6, 5]]),
    ];
    for (pairs, clauses) in rows {
        image_answers(&rt, &table, card(*pairs)?, *clauses)?;
    }
    Ok(())
}

// Under a card that is not admissible there is no image, and the formula comes back.
#[test]
fn refused(rt: HostRuntime) -> Result<(), Fail> {
    let mut literals = [0; 8];
    let mut ends = [0; 4];
    let outline = read(EXAMPLE, &mut literals, &mut ends)?;
    let table = Table::over(outline, &literals, &ends);
    let rows: &[&[(u16, u16)]] = &[
        &[(1, 4), (2, 2)],
        &[(3, 8), (4, 6)],
        &[(4, 9)],
        &[(512, 1025)],
    ];
    for pairs in rows {
        comes_back(&rt, &table, card(*pairs)?, CLAUSES)?;
        image_comes_back(
            &rt,
            &table,
            card(&[(1, 3)])?,
            card(*pairs)?,
            &[&[3, 4, 7, 3], &[], &[2, 5]],
        )?;
    }
    Ok(())
}

// The image of an image: each literal goes by the first card, then by the second, as under the two cards joined.
#[test]
fn twice(rt: HostRuntime) -> Result<(), Fail> {
    let mut literals = [0; 8];
    let mut ends = [0; 4];
    let outline = read(EXAMPLE, &mut literals, &mut ends)?;
    let table = Table::over(outline, &literals, &ends);
    let rows: &[(&[(u16, u16)], &[(u16, u16)], &[&[u16]])] = &[
        (&[], &[], CLAUSES),
        (&[(1, 6), (3, 2)], &[(1, 6), (3, 2)], CLAUSES),
        // exchange 1 and 3, then negate 1; and the other way round
        (&[(1, 6), (3, 2)], &[(1, 3)], &[&[6, 4, 2, 6], &[], &[7, 5]]),
        (&[(1, 3)], &[(1, 6), (3, 2)], &[&[7, 4, 3, 7], &[], &[6, 5]]),
        (&[(2, 5)], &[(1, 7), (3, 2)], &[&[7, 5, 3, 7], &[], &[6, 4]]),
        // 1 to not 3 and 3 to 1: twice, that negates both
        (
            &[(1, 7), (3, 2)],
            &[(1, 7), (3, 2)],
            &[&[3, 4, 6, 3], &[], &[2, 5]],
        ),
    ];
    for (first, second, clauses) in rows {
        let first = card(*first)?;
        let second = card(*second)?;
        nested_answers(&rt, &table, first, second, *clauses)?;
        image_answers(&rt, &table, first.then(second), *clauses)?;
        nested_answers(&rt, &table, first, first.inverse(), CLAUSES)?;
    }
    Ok(())
}

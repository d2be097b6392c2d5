// The inverse of a card, and two cards one after the other.
use super::tools::{card, moves_nothing};
use std::test::Fail;

// 1 to not 2, 2 to 3, 3 to not 1, 512 to not 512
const CYCLE: &[(u16, u16)] = &[(1, 5), (2, 6), (3, 3), (512, 1025)];

// What the inverse of the cycle does.
#[test]
fn taken_back(rt: HostRuntime) -> Result<(), Fail> {
    let inverse = card(CYCLE)?.inverse();
    let rows: &[(u16, u16)] = &[
        (5, 2),
        (4, 3),
        (6, 4),
        (7, 5),
        (3, 6),
        (2, 7),
        (8, 8),
        (9, 9),
        (1024, 1025),
        (1025, 1024),
        (0, 0),
        (1, 1),
        (1026, 1026),
        (65535, 65535),
    ];
    for (code, image) in rows {
        assert_eq!(rt; inverse.image(*code), *image);
    }
    Ok(())
}

// The inverse after the card moves nothing, nor does the card after its inverse.
#[test]
fn undone(rt: HostRuntime) -> Result<(), Fail> {
    let rows: &[&[(u16, u16)]] = &[
        &[],
        &[(1, 3)],
        &[(1, 4), (2, 2)],
        &[(1, 5), (2, 2)],
        &[(1, 1024), (512, 3)],
        CYCLE,
    ];
    for pairs in rows {
        let card = card(*pairs)?;
        let inverse = card.inverse();
        moves_nothing(&rt, &card.then(inverse));
        moves_nothing(&rt, &inverse.then(card));
        for code in 0..=u16::MAX {
            assert_eq!(rt; inverse.image(card.image(code)), code);
            assert_eq!(rt; card.image(inverse.image(code)), code);
        }
    }
    Ok(())
}

// The first card acts first: to exchange 1 and 2 and then negate 1 is not the same as the other way round.
#[test]
fn in_order(rt: HostRuntime) -> Result<(), Fail> {
    let exchange = card(&[(1, 4), (2, 2)])?;
    let negation = card(&[(1, 3)])?;
    let rows: &[(u16, u16, u16)] = &[
        (0, 0, 0),
        (1, 1, 1),
        (2, 4, 5),
        (3, 5, 4),
        (4, 3, 2),
        (5, 2, 3),
        (6, 6, 6),
        (1026, 1026, 1026),
    ];
    for (code, negated_last, negated_first) in rows {
        assert_eq!(rt; exchange.then(negation).image(*code), *negated_last);
        assert_eq!(rt; negation.then(exchange).image(*code), *negated_first);
    }
    Ok(())
}

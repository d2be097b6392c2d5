// Cards from pairs: each fault at its pair, and which of two faults decides.
use super::tools::{card, moves_nothing};
use cards::{Card, CardFault};
use std::alloc::{AllocError, Global};
use std::process::Abort;
use std::test::Fail;

// Pairs, and the fault of the list; none where they make a card.
type Row = (&'static [(u16, u16)], Option<CardFault>);

// Each list of pairs has the fault beside it.
fn all_come_to(rt: &impl Abort, rows: &[Row]) {
    for (pairs, fault) in rows {
        assert_eq!(rt; Card::from_pairs(*pairs).err(), *fault);
    }
}

// The pairs that take v to its negation, for v from 1 to 600.
fn negations(heap: Global) -> Result<Vec<(u16, u16)>, AllocError> {
    let mut pairs = Vec::new(heap);
    for v in 1..601u16 {
        pairs.push((v, 2 * v + 1))?;
    }
    Ok(pairs)
}

// Pairs that make a card: none, variables that stay, signs, an exchange, a cycle, the last variable.
#[test]
fn lawful(rt: HostRuntime) {
    let rows: &[Row] = &[
        (&[], None),
        (&[(1, 2)], None),
        (&[(1, 3)], None),
        (&[(1, 4), (2, 3)], None),
        (&[(1, 5), (2, 6), (3, 3), (512, 1025)], None),
        (&[(1, 1024), (512, 2)], None),
    ];
    all_come_to(&rt, rows);
}

// A variable that is 0, above 512, or not above the one before it.
#[test]
fn variables(rt: HostRuntime) {
    let rows: &[Row] = &[
        (&[(0, 2)], Some(CardFault::Variable(0))),
        (&[(513, 2)], Some(CardFault::Variable(0))),
        (&[(65535, 2)], Some(CardFault::Variable(0))),
        (&[(1, 2), (513, 4)], Some(CardFault::Variable(1))),
        // repeated, descending, and below one that is not the first
        (&[(1, 2), (1, 4)], Some(CardFault::Variable(1))),
        (&[(2, 4), (1, 2)], Some(CardFault::Variable(1))),
        (&[(1, 2), (3, 6), (2, 4)], Some(CardFault::Variable(2))),
    ];
    all_come_to(&rt, rows);
}

// An image that is no literal, or is over the variable of an image before it.
#[test]
fn images(rt: HostRuntime) {
    let rows: &[Row] = &[
        (&[(1, 0)], Some(CardFault::Image(0))),
        (&[(1, 1)], Some(CardFault::Image(0))),
        (&[(1, 1026)], Some(CardFault::Image(0))),
        (&[(1, 1027)], Some(CardFault::Image(0))),
        (&[(1, 65535)], Some(CardFault::Image(0))),
        (&[(1, 2), (2, 1026)], Some(CardFault::Image(1))),
        // repeated, and with the other sign
        (&[(1, 2), (2, 2)], Some(CardFault::Image(1))),
        (&[(1, 2), (2, 3)], Some(CardFault::Image(1))),
        (&[(1, 4), (2, 6), (3, 5)], Some(CardFault::Image(2))),
    ];
    all_come_to(&rt, rows);
}

// An image over a variable that no pair names; the first such pair is told.
#[test]
fn unnamed(rt: HostRuntime) {
    let rows: &[Row] = &[
        (&[(1, 4)], Some(CardFault::Unnamed(0))),
        (&[(1, 1025)], Some(CardFault::Unnamed(0))),
        (&[(1, 2), (2, 6)], Some(CardFault::Unnamed(1))),
        (&[(1, 4), (3, 8)], Some(CardFault::Unnamed(0))),
        (&[(1, 5), (2, 6), (512, 1025)], Some(CardFault::Unnamed(1))),
        (
            &[(1, 4), (2, 2), (3, 8), (5, 12)],
            Some(CardFault::Unnamed(2)),
        ),
    ];
    all_come_to(&rt, rows);
}

// Pair by pair, the variable before the image; last the variables that no pair names.
#[test]
fn first_of_two(rt: HostRuntime) {
    let rows: &[Row] = &[
        (&[(0, 0)], Some(CardFault::Variable(0))),
        (&[(513, 1026)], Some(CardFault::Variable(0))),
        (&[(1, 2), (1, 2)], Some(CardFault::Variable(1))),
        // a bad image in pair 0, a bad variable in pair 1; and the other way round
        (&[(1, 1), (0, 2)], Some(CardFault::Image(0))),
        (&[(0, 2), (1, 1)], Some(CardFault::Variable(0))),
        // an unnamed variable in pair 0, and another fault in pair 1
        (&[(1, 4), (0, 2)], Some(CardFault::Variable(1))),
        (&[(1, 4), (3, 4)], Some(CardFault::Image(1))),
        (&[(1, 4), (3, 1)], Some(CardFault::Image(1))),
    ];
    all_come_to(&rt, rows);
}

// At most 512 pairs, and that is judged first.
#[test]
fn counts(rt: HostRuntime) -> Result<(), Fail> {
    let pairs = negations(rt.alloc())?;
    let zeros = vec![in rt.alloc(); (0u16, 0u16); 600]?;
    let rows: &[(usize, Option<CardFault>, Option<CardFault>)] = &[
        (0, None, None),
        (1, None, Some(CardFault::Variable(0))),
        (512, None, Some(CardFault::Variable(0))),
        (513, Some(CardFault::Many), Some(CardFault::Many)),
        (600, Some(CardFault::Many), Some(CardFault::Many)),
    ];
    for (count, of_pairs, of_zeros) in rows {
        let some = pairs.get(0..*count).ok_or("too many")?;
        assert_eq!(rt; Card::from_pairs(some).err(), *of_pairs);
        let some = zeros.get(0..*count).ok_or("too many")?;
        assert_eq!(rt; Card::from_pairs(some).err(), *of_zeros);
    }
    Ok(())
}

// The card of 512 negations negates every literal, and leaves the other codes.
#[test]
fn all_named(rt: HostRuntime) -> Result<(), Fail> {
    let pairs = negations(rt.alloc())?;
    let card = card(pairs.get(0..512).ok_or("too many")?)?;
    for code in 0..=u16::MAX {
        let negated = if code < 2 || code > 1025 {
            code
        } else {
            code ^ 1
        };
        assert_eq!(rt; card.image(code), negated);
    }
    Ok(())
}

// No pairs make the card that moves nothing; so do pairs of variables that stay.
#[test]
fn none_moved(rt: HostRuntime) -> Result<(), Fail> {
    let rows: &[&[(u16, u16)]] = &[&[], &[(1, 2)], &[(1, 2), (2, 4), (512, 1024)]];
    for pairs in rows {
        moves_nothing(&rt, &card(*pairs)?);
    }
    Ok(())
}

// The example: a refutation of four lines, the same without room for it, and what is called once it is whole.
use super::calls::{axiom, reduction, resolution, symmetry};
use super::grounds::{PAIR, ROOMY, all_hold, card};
use super::replies::{ABSENT, CLOSED, FULL, line, open, refuted};
use case::{Call, Reply};
use std::test::Fail;

// Clause {1, 2}; reduced by 2 it is {1}; the symmetry that negates both variables takes that to {-1}; the two resolve to the empty clause.
#[test]
fn four_lines(rt: HostRuntime) -> Result<(), Fail> {
    let negating = card(&[(1, 3), (2, 5)])?;
    let rows: &[(Call, Reply)] = &[
        (Call::Verdict, open(0)),
        (axiom(0), line(0)),
        (Call::Verdict, open(1)),
        (reduction(0, 2), line(1)),
        (Call::Verdict, open(2)),
        (symmetry(1, negating), line(2)),
        (Call::Verdict, open(3)),
        (resolution(1, 2, 1), line(3)),
        (Call::Verdict, refuted(4)),
    ];
    all_hold(
        &rt,
        rt.alloc(),
        PAIR,
        ROOMY,
        rows,
        &[&[1, 2], &[1], &[-1], &[]],
    )
}

// With 5 cells, or 2 rows and a part of one, there is no room for a third clause and so no line 2.
#[test]
fn two_lines(rt: HostRuntime) -> Result<(), Fail> {
    let negating = card(&[(1, 3), (2, 5)])?;
    let rows: &[(Call, Reply)] = &[
        (axiom(0), line(0)),
        (reduction(0, 2), line(1)),
        (symmetry(1, negating), FULL),
        (resolution(1, 2, 1), ABSENT),
        (Call::Verdict, open(2)),
    ];
    all_hold(&rt, rt.alloc(), PAIR, (5, 47), rows, &[&[1, 2], &[1]])
}

// Once the empty clause is kept every claim is refused as closed, whatever else is wrong with it, and the verdict stays. Here the shelf
// is full, too.
#[test]
fn closed(rt: HostRuntime) -> Result<(), Fail> {
    let negating = card(&[(1, 3), (2, 5)])?;
    let exchanging = card(&[(1, 4), (2, 2)])?;
    let halfway = card(&[(1, 3)])?;
    let rows: &[(Call, Reply)] = &[
        (axiom(0), line(0)),
        (reduction(0, 2), line(1)),
        (symmetry(1, negating), line(2)),
        (resolution(1, 2, 1), line(3)),
        (Call::Verdict, refuted(4)),
        // what would be granted if there were room
        (axiom(0), CLOSED),
        (reduction(0, 2), CLOSED),
        (symmetry(1, negating), CLOSED),
        (resolution(1, 2, 1), CLOSED),
        // no such clause, line or variable
        (axiom(2), CLOSED),
        (resolution(4, 0, 1), CLOSED),
        (resolution(0, 4, 1), CLOSED),
        (resolution(1, 2, 0), CLOSED),
        (reduction(4, 2), CLOSED),
        (reduction(0, 3), CLOSED),
        (symmetry(4, negating), CLOSED),
        // a pivot, a reduction, a level and a symmetry that do not fit
        (resolution(2, 1, 1), CLOSED),
        (reduction(0, 1), CLOSED),
        (symmetry(0, exchanging), CLOSED),
        (symmetry(0, halfway), CLOSED),
        (Call::Verdict, refuted(4)),
        (Call::Verdict, refuted(4)),
    ];
    all_hold(
        &rt,
        rt.alloc(),
        PAIR,
        (8, 64),
        rows,
        &[&[1, 2], &[1], &[-1], &[]],
    )
}

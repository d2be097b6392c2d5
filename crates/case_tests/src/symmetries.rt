// Claims of images of earlier lines.
use super::calls::{axiom, symmetry};
use super::grounds::{PAIR, ROOMY, all_hold, card};
use super::replies::{ABSENT, ASYMMETRY, FULL, LEVEL, line, open};
use case::{Call, Reply};
use std::test::Fail;

// its clauses go round as 1 goes to 2, 2 to 3 and 3 to 1
const ROUND: &str = "p cnf 3 3 e 1 2 3 0 1 -2 0 2 -3 0 3 -1 0";

#[test]
fn answered(rt: HostRuntime) -> Result<(), Fail> {
    // 1 to -1 and 2 to -2; none moved; 1 to 2 and 2 to 1; 3 to -3; 1 to -1 alone
    let negating = card(&[(1, 3), (2, 5)])?;
    let resting = card(&[])?;
    let exchanging = card(&[(1, 4), (2, 2)])?;
    let beyond = card(&[(3, 7)])?;
    let halfway = card(&[(1, 3)])?;
    let rows: &[(Call, Reply)] = &[
        // no such line
        (symmetry(0, negating), ABSENT),
        (axiom(0), line(0)),
        (symmetry(1, negating), ABSENT),
        (symmetry(usize::MAX, negating), ABSENT),
        // clauses stay clauses, but levels change, or what is no variable is moved
        (symmetry(0, exchanging), LEVEL),
        (symmetry(0, beyond), LEVEL),
        // no clause is {-1, 2}
        (symmetry(0, halfway), ASYMMETRY),
        (symmetry(0, negating), line(1)),
        (symmetry(1, resting), line(2)),
        (symmetry(2, negating), line(3)),
        (Call::Verdict, open(4)),
    ];
    let clauses: &[&[i32]] = &[&[1, 2], &[-1, -2], &[-1, -2], &[1, 2]];
    all_hold(&rt, rt.alloc(), PAIR, ROOMY, rows, clauses)?;
    // literals are kept in ascending order, wherever they come from
    let turning = card(&[(1, 4), (2, 6), (3, 2)])?;
    let rows: &[(Call, Reply)] = &[
        (axiom(0), line(0)),
        (symmetry(0, turning), line(1)),
        (symmetry(1, turning), line(2)),
        (symmetry(2, turning), line(3)),
        (Call::Verdict, open(4)),
    ];
    let clauses: &[&[i32]] = &[&[1, -2], &[2, -3], &[-1, 3], &[1, -2]];
    all_hold(&rt, rt.alloc(), ROUND, ROOMY, rows, clauses)
}

// Of two faults the one that comes first in the order is answered. From the first line on the shelf is full, too.
#[test]
fn first_of_two(rt: HostRuntime) -> Result<(), Fail> {
    // 1 to -1 and 2 to -2; 1 to 2 and 2 to 1; 1 to -2 and 2 to 1; 1 to -1 alone
    let negating = card(&[(1, 3), (2, 5)])?;
    let exchanging = card(&[(1, 4), (2, 2)])?;
    let crossing = card(&[(1, 5), (2, 2)])?;
    let halfway = card(&[(1, 3)])?;
    let rows: &[(Call, Reply)] = &[
        // a line absent, and a level or a clause changed
        (symmetry(0, exchanging), ABSENT),
        (symmetry(0, halfway), ABSENT),
        (axiom(0), line(0)),
        (symmetry(1, crossing), ABSENT),
        // a level changed, and a clause taken to none
        (symmetry(0, crossing), LEVEL),
        // no room for the image under what is no symmetry, or is one
        (symmetry(0, exchanging), LEVEL),
        (symmetry(0, halfway), ASYMMETRY),
        (symmetry(0, negating), FULL),
        (Call::Verdict, open(1)),
    ];
    all_hold(&rt, rt.alloc(), PAIR, (3, 16), rows, &[&[1, 2]])
}

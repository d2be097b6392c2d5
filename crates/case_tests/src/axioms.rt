// Claims of clauses of the formula.
use super::calls::axiom;
use super::grounds::{ROOMY, all_hold};
use super::replies::{ABSENT, CLOSED, FULL, TAUTOLOGY, line, open, refuted};
use case::{Call, Reply};
use std::test::Fail;

// literals repeated and in no order, a tautological clause, the empty clause
const CROWDED: &str = "p cnf 3 3 e 1 0 a 2 0 e 3 0 3 -2 1 -2 3 0 1 2 -1 0 0";

// Each literal is kept once, in ascending order.
#[test]
fn answered(rt: HostRuntime) -> Result<(), Fail> {
    let rows: &[(Call, Reply)] = &[
        (axiom(0), line(0)),
        (axiom(1), TAUTOLOGY),
        (axiom(3), ABSENT),
        (axiom(usize::MAX), ABSENT),
        // a clause may be claimed again
        (axiom(0), line(1)),
        (Call::Verdict, open(2)),
        (axiom(2), line(2)),
        (Call::Verdict, refuted(3)),
    ];
    all_hold(
        &rt,
        rt.alloc(),
        CROWDED,
        ROOMY,
        rows,
        &[&[1, -2, 3], &[1, -2, 3], &[]],
    )
}

// Of two faults the one that comes first in the order is answered.
#[test]
fn first_of_two(rt: HostRuntime) -> Result<(), Fail> {
    // room for one clause
    let rows: &[(Call, Reply)] = &[
        (axiom(0), line(0)),
        (axiom(3), ABSENT),
        (axiom(1), TAUTOLOGY),
        (axiom(0), FULL),
        (axiom(2), FULL),
        (Call::Verdict, open(1)),
    ];
    all_hold(&rt, rt.alloc(), CROWDED, (4, 16), rows, &[&[1, -2, 3]])?;
    // room for that and the empty clause
    let rows: &[(Call, Reply)] = &[
        (axiom(0), line(0)),
        (axiom(2), line(1)),
        (axiom(3), CLOSED),
        (axiom(1), CLOSED),
        (axiom(0), CLOSED),
        (axiom(2), CLOSED),
        (Call::Verdict, refuted(2)),
    ];
    all_hold(&rt, rt.alloc(), CROWDED, (5, 32), rows, &[&[1, -2, 3], &[]])
}

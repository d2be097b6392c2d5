// Claims of reductions.
use super::calls::{axiom, reduction};
use super::grounds::{ROOMY, all_hold};
use super::replies::{ABSENT, FULL, REDUCTION, line, open, refuted};
use case::{Call, Reply};
use std::test::Fail;

// some 1, all 2, some 3
const DEEP: &str = "p cnf 3 2 e 1 0 a 2 0 e 3 0 1 2 0 -2 3 0";

// the example with its quantifiers turned
const TURNED: &str = "p cnf 2 2 a 1 0 e 2 0 1 2 0 -1 -2 0";

// two universal variables, and an existential one between them
const APART: &str = "p cnf 3 1 a 1 0 e 2 0 a 3 0 1 -3 0";

#[test]
fn answered(rt: HostRuntime) -> Result<(), Fail> {
    let rows: &[(Call, Reply)] = &[
        // no such line, no such variable
        (reduction(0, 2), ABSENT),
        (axiom(0), line(0)),
        (axiom(1), line(1)),
        (reduction(2, 2), ABSENT),
        (reduction(usize::MAX, 2), ABSENT),
        (reduction(0, 0), ABSENT),
        (reduction(0, 4), ABSENT),
        (reduction(0, usize::MAX), ABSENT),
        // an existential variable; one in a clause where an existential literal lies deeper; one that is not in the clause
        (reduction(0, 1), REDUCTION),
        (reduction(1, 2), REDUCTION),
        (reduction(0, 2), line(2)),
        (reduction(2, 2), REDUCTION),
        (Call::Verdict, open(3)),
    ];
    all_hold(
        &rt,
        rt.alloc(),
        DEEP,
        ROOMY,
        rows,
        &[&[1, 2], &[-2, 3], &[1]],
    )?;
    let rows: &[(Call, Reply)] = &[
        (axiom(0), line(0)),
        (reduction(0, 1), REDUCTION),
        (reduction(0, 2), REDUCTION),
        (Call::Verdict, open(1)),
    ];
    all_hold(&rt, rt.alloc(), TURNED, ROOMY, rows, &[&[1, 2]])?;
    // a universal literal may lie deeper
    let rows: &[(Call, Reply)] = &[
        (axiom(0), line(0)),
        (reduction(0, 1), line(1)),
        (Call::Verdict, open(2)),
        (reduction(1, 3), line(2)),
        (Call::Verdict, refuted(3)),
    ];
    all_hold(&rt, rt.alloc(), APART, ROOMY, rows, &[&[1, -3], &[-3], &[]])
}

// Of two faults the one that comes first in the order is answered. Here the shelf is full, too.
#[test]
fn first_of_two(rt: HostRuntime) -> Result<(), Fail> {
    let rows: &[(Call, Reply)] = &[
        (axiom(0), line(0)),
        (axiom(1), line(1)),
        // a line absent, and an existential variable
        (reduction(2, 1), ABSENT),
        // no variable, so none that is universal
        (reduction(0, 0), ABSENT),
        (reduction(0, 4), ABSENT),
        // no room for what cannot be reduced, or can
        (reduction(0, 1), REDUCTION),
        (reduction(0, 3), REDUCTION),
        (reduction(1, 2), REDUCTION),
        (reduction(0, 2), FULL),
        (Call::Verdict, open(2)),
    ];
    all_hold(&rt, rt.alloc(), DEEP, (6, 32), rows, &[&[1, 2], &[-2, 3]])
}

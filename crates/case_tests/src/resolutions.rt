// Claims of resolvents.
use super::calls::{axiom, reduction, resolution};
use super::grounds::{PAIR, ROOMY, all_hold};
use super::replies::{ABSENT, FULL, PIVOT, TAUTOLOGY, line, open, refuted};
use case::{Call, Reply};
use std::test::Fail;

// one block of three variables
const SHARED: &str = "p cnf 3 2 e 1 2 3 0 3 1 -2 0 -1 3 0";

#[test]
fn answered(rt: HostRuntime) -> Result<(), Fail> {
    let rows: &[(Call, Reply)] = &[
        // no line at all, none that is second, none that is first
        (resolution(0, 0, 1), ABSENT),
        (axiom(0), line(0)),
        (resolution(0, 1, 1), ABSENT),
        (axiom(1), line(1)),
        (resolution(2, 1, 1), ABSENT),
        (reduction(0, 2), line(2)),
        (reduction(1, 2), line(3)),
        // {1} and {-1} upon what is no variable
        (resolution(2, 3, 0), ABSENT),
        (resolution(2, 3, 3), ABSENT),
        (resolution(2, 3, usize::MAX), ABSENT),
        // the first lacks 1, the second lacks -1, each lacks its own
        (resolution(3, 1, 1), PIVOT),
        (resolution(0, 2, 1), PIVOT),
        (resolution(3, 2, 1), PIVOT),
        // {2, -2}
        (resolution(0, 1, 1), TAUTOLOGY),
        (resolution(0, 3, 1), line(4)),
        (resolution(2, 1, 1), line(5)),
        // {2} and {-2} upon a universal variable
        (resolution(4, 5, 2), PIVOT),
        (Call::Verdict, open(6)),
        (resolution(2, 3, 1), line(6)),
        (Call::Verdict, refuted(7)),
    ];
    let clauses: &[&[i32]] = &[&[1, 2], &[-1, -2], &[1], &[-1], &[2], &[-2], &[]];
    all_hold(&rt, rt.alloc(), PAIR, ROOMY, rows, clauses)?;
    // a literal that both have is kept once
    let rows: &[(Call, Reply)] = &[
        (axiom(0), line(0)),
        (axiom(1), line(1)),
        (resolution(0, 1, 1), line(2)),
        (Call::Verdict, open(3)),
    ];
    all_hold(
        &rt,
        rt.alloc(),
        SHARED,
        ROOMY,
        rows,
        &[&[1, -2, 3], &[-1, 3], &[-2, 3]],
    )
}

// Of two faults the one that comes first in the order is answered. Here the shelf is full, too.
#[test]
fn first_of_two(rt: HostRuntime) -> Result<(), Fail> {
    let rows: &[(Call, Reply)] = &[
        (axiom(0), line(0)),
        (axiom(1), line(1)),
        (reduction(0, 2), line(2)),
        (reduction(1, 2), line(3)),
        // a line absent, and a universal variable
        (resolution(4, 1, 2), ABSENT),
        (resolution(0, 4, 2), ABSENT),
        // no variable, so none that could be the pivot
        (resolution(0, 1, 0), ABSENT),
        (resolution(0, 1, 3), ABSENT),
        // a universal variable, or a sign that lacks, and a tautology
        (resolution(0, 1, 2), PIVOT),
        (resolution(1, 0, 1), PIVOT),
        // no room for what cannot be resolved, is tautological, or is well
        (resolution(3, 2, 1), PIVOT),
        (resolution(0, 1, 1), TAUTOLOGY),
        (resolution(0, 3, 1), FULL),
        (resolution(2, 3, 1), FULL),
        (Call::Verdict, open(4)),
    ];
    let clauses: &[&[i32]] = &[&[1, 2], &[-1, -2], &[1], &[-1]];
    all_hold(&rt, rt.alloc(), PAIR, (10, 64), rows, clauses)
}

// Tables of calls and replies, held to a case on any formula and any shelf.
use super::replies::is_granted;
use super::shelves::keeps;
use case::{Call, Case, Claim, Reply, run};
use formula::Formula;
use shelf::Shelf;
use std::alloc::Global;
use std::process::Abort;
use std::test::Fail;

// what the places hold before a run; no line has this number
const OTHER: Reply = Reply::Claim(Ok(8192));

// Each call gets the reply beside it, made one by one and in runs with every number of places. After each call as many of the clauses
// are kept as claims were granted.
pub(crate) fn hold<F: Formula, S: Shelf>(
    rt: &impl Abort,
    heap: Global,
    ground: &str,
    formula: &F,
    shelf: &mut S,
    rows: &[(Call, Reply)],
    clauses: &[&[i32]],
) -> Result<(), Fail> {
    for k in 0..rows.len() + 1 {
        let (front, _) = rows.split_at(k);
        let granted = granted(front);
        let kept = clauses.get(0..granted).ok_or("more are granted")?;
        answers(rt, ground, formula, &mut *shelf, front, kept)?;
        runs(rt, heap, ground, formula, &mut *shelf, rows, k, kept)?;
        runs(
            rt,
            heap,
            ground,
            formula,
            &mut *shelf,
            front,
            rows.len(),
            kept,
        )?;
    }
    assert_eq!(rt; granted(rows), clauses.len(), "{}", ground);
    Ok(())
}

// How many claims are granted.
fn granted(rows: &[(Call, Reply)]) -> usize {
    rows.iter().filter(|(_, reply)| is_granted(*reply)).count()
}

// Each call, made one by one, gets the reply beside it; a refusal leaves the verdict as it was. Then these clauses are kept.
pub(crate) fn answers<F: Formula + Drop, S: Shelf + Drop>(
    rt: &impl Abort,
    ground: &str,
    formula: F,
    shelf: S,
    rows: &[(Call, Reply)],
    clauses: &[&[i32]],
) -> Result<(), Fail> {
    let mut case = Case::open(formula, shelf);
    for (call, reply) in rows {
        let before = case.verdict();
        assert_eq!(rt;
            make(&mut case, *call),
            *reply,
            "{}, {} calls",
            ground,
            rows.len()
        );
        if let Reply::Claim(Err(_)) = reply {
            assert_eq!(rt; case.verdict(), before, "{}, {} calls", ground, rows.len());
        }
    }
    let (_, shelf) = case.close();
    keeps(rt, ground, &shelf, clauses)
}

// Makes a call by the function of its name.
fn make<F: Formula, S: Shelf>(case: &mut Case<F, S>, call: Call) -> Reply {
    let claim = match call {
        Call::Claim(claim) => claim,
        Call::Verdict => return Reply::Verdict(case.verdict()),
    };
    Reply::Claim(match claim {
        Claim::Axiom(clause) => case.axiom(clause),
        Claim::Resolution(first, second, variable) => case.resolution(first, second, variable),
        Claim::Reduction(line, variable) => case.reduction(line, variable),
        Claim::Symmetry(line, card) => case.symmetry(line, card),
    })
}

// A run with so many places puts the reply of each call in its place, and leaves what the other places held. Then these clauses are kept.
pub(crate) fn runs<F: Formula + Drop, S: Shelf + Drop>(
    rt: &impl Abort,
    heap: Global,
    ground: &str,
    formula: F,
    shelf: S,
    rows: &[(Call, Reply)],
    places: usize,
    clauses: &[&[i32]],
) -> Result<(), Fail> {
    let calls = rows
        .iter()
        .map(|(call, _)| *call)
        .collect::<Vec<Call>>(heap)?;
    let mut replies = vec![in heap; OTHER; places]?;
    let case = run(formula, shelf, &calls, &mut replies);
    for (i, reply) in replies.iter().enumerate() {
        assert_eq!(rt;
            *reply,
            rows.get(i).map_or(OTHER, |(_, reply)| *reply),
            "{}, {} calls, {} places",
            ground,
            rows.len(),
            places
        );
    }
    let (_, shelf) = case.close();
    keeps(rt, ground, &shelf, clauses)
}

// Small texts that are formulas, and one of them cut short.
use super::tools::{EXAMPLE, all_tidy, refuses, tidies};
use std::test::Fail;

const LONE: &str = "p cnf 1 0\ne 1 0\n";

// a last universal block
const LAST: &str = "p cnf 3 1\na 2 0\ne 1 0\na 3 0\n1 -2 3 0\n";

// repeated literals and clauses, tautological clauses, empty clauses
const CROWDED: &str = "p cnf 2 5\ne 1 2 0\n1 1 1 0\n1 -1 0\n0\n1 -1 0\n0\n";

// A tidy text is reproduced byte for byte. Of another, the variables of a level are put in ascending order;
// literals and clauses stay where they are.
#[test]
fn tidied(rt: HostRuntime) -> Result<(), Fail> {
    let rows: &[(&str, &str)] = &[
        (EXAMPLE, EXAMPLE),
        (LONE, LONE),
        (LAST, LAST),
        (CROWDED, CROWDED),
        ("p cnf 3 0 e 3 1 2 0", "p cnf 3 0\ne 1 2 3 0\n"),
        (
            "p cnf 3 2 a 3 2 0 e 1 0 3 -1 2 0 -2 0",
            "p cnf 3 2\na 2 3 0\ne 1 0\n3 -1 2 0\n-2 0\n",
        ),
    ];
    all_tidy(&rt, rt.alloc(), rows)
}

// The example cut at every byte before its last clause is complete. From one length to the next, the rule that is broken,
// and how far before the end of the text: there, or at the word that was cut.
#[test]
fn cut_short(rt: HostRuntime) -> Result<(), Fail> {
    let spans: &[(usize, usize, usize)] = &[
        // in the header
        (3, 12, 0),
        (4, 12, 1),
        (5, 12, 2),
        (9, 12, 0),
        // behind it, in the first block, behind that, in the second
        (11, 14, 0),
        (15, 15, 0),
        (17, 14, 0),
        (21, 15, 0),
        // among the clauses, where a minus alone is no number
        (29, 15, 0),
        (30, 11, 1),
        (32, 15, 0),
        (33, 11, 1),
        (35, 15, 0),
    ];
    let mut from = 0;
    for (to, rule, back) in spans {
        for len in from..*to {
            let text = EXAMPLE.get(0..len).ok_or("too long")?;
            refuses(
                &rt,
                rt.alloc(),
                64,
                16,
                text,
                *rule,
                len.saturating_sub(*back),
            )?;
        }
        from = *to;
    }
    tidies(
        &rt,
        rt.alloc(),
        64,
        16,
        EXAMPLE.get(0..from).ok_or("too long")?,
        EXAMPLE,
    )
}

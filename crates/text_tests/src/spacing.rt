// What stands between the words.
use super::tools::{all_refuse, all_tidy};
use std::test::Fail;

const TIDY: &str = "p cnf 1 1\na 1 0\n0\n";

// Comments stand before the header, each from the start of a line to its line feed.
#[test]
fn comments(rt: HostRuntime) -> Result<(), Fail> {
    let tidied: &[(&str, &str)] = &[
        ("c\np cnf 1 1 a 1 0 0", TIDY),
        ("c one\nctwo p cnf 9 9\np cnf 1 1 a 1 0 0", TIDY),
        ("\n\nc one\n \t\r\nc two\n  p cnf 1 1 a 1 0 0", TIDY),
    ];
    all_tidy(&rt, rt.alloc(), tidied)?;
    let refused: &[(&str, usize, usize)] = &[
        // no line feed ends these
        ("c", 12, 1),
        ("c p cnf 1 1 a 1 0 0", 12, 19),
        ("c\rp cnf 1 1 a 1 0 0", 12, 19),
        ("cnf 1 1", 12, 7),
        // behind blanks or a word, c begins a word
        (" c\np cnf 1 1 a 1 0 0", 12, 1),
        ("p\nc\ncnf 1 1 a 1 0 0", 12, 2),
        ("p cnf 1 1\nc\na 1 0 0", 11, 10),
        ("p cnf 1 1 a 1 0 0\nc", 11, 18),
    ];
    all_refuse(&rt, rt.alloc(), 64, 16, refused)
}

// Tabs, line feeds, carriage returns and spaces part words, and nothing else does.
#[test]
fn separators(rt: HostRuntime) -> Result<(), Fail> {
    let tidied: &[(&str, &str)] = &[
        ("p\tcnf\t1\t1\ta\t1\t0\t0", TIDY),
        ("p\ncnf\n1\n1\na\n1\n0\n0", TIDY),
        ("p\rcnf\r1\r1\ra\r1\r0\r0", TIDY),
        ("p cnf 1 1 a 1 0 0", TIDY),
        (" \t\r\np \t\r\ncnf\n\n1\r\n1  a\t\t1 0\r\n0\r\n", TIDY),
    ];
    all_tidy(&rt, rt.alloc(), tidied)?;
    let refused: &[(&str, usize, usize)] = &[
        ("p\x0bcnf 1 1", 12, 0),
        ("p\x0ccnf 1 1", 12, 0),
        ("p\0cnf 1 1", 12, 0),
        ("p cnf 1,1", 12, 6),
        ("p cnf 1 1 a 1 0 0;", 11, 16),
    ];
    all_refuse(&rt, rt.alloc(), 64, 16, refused)
}

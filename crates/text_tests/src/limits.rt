// Texts at the limits, and one beyond them, with more cells than the limits ask for.
use super::tools::{refuses, tidies};
use std::alloc::{AllocError, Global};
use std::test::Fail;

const CELLS: usize = 16385;

const ENDS: usize = 2049;

// The text of n variables in one block, and of so many clauses that list 1 so many times; then its last bytes.
fn text_of(
    heap: Global,
    n: usize,
    m: usize,
    count: usize,
    len: usize,
    last: &str,
) -> Result<String, AllocError> {
    let mut text = format!(in heap; "p cnf {n} {m}\ne")?;
    for i in 0..n {
        let v = i + 1;
        text.push_str(format!(in heap; " {v}")?.as_str())?;
    }
    text.push_str(" 0\n")?;
    for _ in 0..count {
        for _ in 0..len {
            text.push_str("1 ")?;
        }
        text.push_str("0\n")?;
    }
    text.push_str(last)?;
    Ok(text)
}

// 512 variables, 2,048 clauses, 1,024 literals in a clause, 16,384 in all.
#[test]
fn kept(rt: HostRuntime) -> Result<(), Fail> {
    let rows: &[(usize, usize, usize, usize, &str)] = &[
        (512, 0, 0, 0, ""),
        (1, 2048, 2048, 0, ""),
        (1, 1, 1, 1024, ""),
        (1, 17, 16, 1024, "0\n"),
    ];
    for (n, m, count, len, last) in rows {
        let text = text_of(rt.alloc(), *n, *m, *count, *len, *last)?;
        tidies(&rt, rt.alloc(), CELLS, ENDS, text.as_str(), text.as_str())?;
    }
    Ok(())
}

// One more of each: in the header, or at the first literal too many.
#[test]
fn passed(rt: HostRuntime) -> Result<(), Fail> {
    let rows: &[(usize, usize, usize, usize, &str, usize)] = &[
        (513, 0, 0, 0, "", 6),
        (1, 2049, 2049, 0, "", 8),
        (1, 1, 1, 1025, "", 16 + 2 * 1024),
        (1, 17, 16, 1024, "1 0\n", 17 + 16 * 2050),
    ];
    for (n, m, count, len, last, byte) in rows {
        let text = text_of(rt.alloc(), *n, *m, *count, *len, *last)?;
        refuses(&rt, rt.alloc(), CELLS, ENDS, text.as_str(), 13, *byte)?;
    }
    Ok(())
}

// Buffers that are too short, just long enough, and longer.
use super::tools::EXAMPLE;
use std::process::Abort;
use std::test::Fail;
use writer::WriteFault;

// What is written stands at the start of a buffer of dots, and the other bytes stay; in a buffer that is too short all do.
fn lies_in(rt: &impl Abort, text: &str, expected: &str, out: &mut [u8]) {
    let fits = expected.len() <= out.len();
    match tidying::tidy(text.as_bytes(), &mut [0; 4], &mut [0; 2], out) {
        Ok(len) => assert!(rt; fits && len == expected.len()),
        Err(WriteFault::Cramped) => assert!(rt; !fits),
    }
    for (i, byte) in out.iter().enumerate() {
        let dot = !fits || i >= expected.len();
        let other = if dot {
            Some(b'.')
        } else {
            expected.as_bytes().get(i).copied()
        };
        assert_eq!(rt; Some(*byte), other);
    }
}

#[test]
fn lengths(rt: HostRuntime) -> Result<(), Fail> {
    let rows: &[(&str, &str, usize)] = &[
        (EXAMPLE, EXAMPLE, 0),
        (EXAMPLE, EXAMPLE, 35),
        (EXAMPLE, EXAMPLE, 36),
        (EXAMPLE, EXAMPLE, 40),
        ("q", "refused 12 layer text byte 0 line 0\n", 35),
        ("q", "refused 12 layer text byte 0 line 0\n", 36),
        ("q", "refused 12 layer text byte 0 line 0\n", 37),
    ];
    for (text, expected, len) in rows {
        let mut out = vec![in rt.alloc(); b'.'; *len]?;
        lies_in(&rt, *text, *expected, &mut out);
    }
    Ok(())
}

// What is printed, a line each.
use case::{Refusal, Verdict};
use grammar::TextFault;
use std::io;
use std::io::Write;

// Prints a claim, and the line it is granted as or why it is refused.
pub(crate) fn print_claim(
    rt: &HostRuntime,
    claim: &str,
    answer: Result<usize, Refusal>,
) -> io::Result<()> {
    match answer {
        Ok(line) => println!(rt; "{claim}: line {line}"),
        Err(refusal) => println!(rt; "{claim}: refused {} {refusal}", refusal.number()),
    }
}

// Prints the verdict.
pub(crate) fn print_verdict(rt: &HostRuntime, verdict: Verdict) -> io::Result<()> {
    match verdict {
        Verdict::Refuted(granted) => println!(rt; "verdict: refuted, {granted} claims granted"),
        Verdict::Open(granted) => println!(rt; "verdict: open, {granted} claims granted"),
    }
}

// Prints the line that reports the fault of a text.
pub(crate) fn print_fault(rt: &HostRuntime, fault: TextFault) -> io::Result<()> {
    let mut out = [0u8; 64];
    let len = writer::write_refusal(fault, &mut out).unwrap();
    rt.stdout().write_all(&out[..len])
}

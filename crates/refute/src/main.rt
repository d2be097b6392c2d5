// Reads formula.qdimacs, claims the refutation of the example on it, and prints what came of each claim; or the line that reports the first
// fault of the text.
#![tactic(auto)]

use cells::CellShelf;
use claims::make_claims;
use posting::{CLAUSES, LITERALS, LONGEST, bytes_of};
use printing::print_fault;
use std::io;
use text::Table;

mod claims;
mod printing;

// cells for four lines of 512 literals each
const LINES: usize = 2052;

fn main(rt: HostRuntime) -> io::Result<()> {
    let heap = rt.alloc();
    let text = bytes_of(&rt, "formula.qdimacs")?;
    if text.len() > LONGEST {
        return println!(rt; "file too long");
    }
    let mut literals = vec![in heap; 0u16; LITERALS]?;
    let mut ends = vec![in heap; 0u16; CLAUSES]?;
    let mut lines = vec![in heap; 0u16; LINES]?;
    match text::read(&text, &mut literals, &mut ends) {
        Ok(outline) => {
            let table = Table::over(outline, &literals, &ends);
            make_claims(&rt, table, CellShelf::over(&mut lines))
        }
        Err(fault) => print_fault(&rt, fault),
    }
}

// What the programs share: a file that may be missing, memory for every text that is read, and the program that prints what a call writes.
// It allocates, as programs may; no library stands on it.
#![tactic(auto)]

ghost use Rattle.tidying.specs.Tidied.{Room};

use std::fs::Files;
use std::io::{Print, Write};
use std::{fs, io};
use tidying::WriteFault;

// the longest text that is read
pub const LONGEST: usize = 65536;

// cells for every literal and every clause
pub const LITERALS: usize = 16384;

pub const CLAUSES: usize = 2048;

// a buffer for every text that is written
const WRITTEN: usize = 90127;

// The bytes of a file; none where there is no such file.
pub fn bytes_of<R: Files + AllocGlobal>(rt: &R, path: &str) -> io::Result<Vec<u8>> {
    match fs::read(rt, path) {
        Err(e) if e.kind() == io::ErrorKind::NotFound => Ok(Vec::new(rt.alloc())),
        outcome => outcome,
    }
}

// Prints what a call writes of the text of formula.qdimacs, or that the file is too long. The call has room for every text.
pub fn print_written<R, F>(rt: &R, write: F) -> io::Result<()>
where
    R: Files + AllocGlobal + Print,
    F: FnOnce(&[u8], &mut [u16], &mut [u16], &mut [u8]) -> Result<usize, WriteFault>,
    requires callable { F.IsAlwaysCallable write }
    requires room { (text literals ends out r literals' ends' out' : _) → F.post write text literals ends out r literals' ends' out' → Room out.now r }
{
    let text = bytes_of(rt, "formula.qdimacs")?;
    if text.len() > LONGEST {
        return println!(rt; "file too long");
    }
    let mut literals = vec![in rt.alloc(); 0u16; LITERALS]?;
    let mut ends = vec![in rt.alloc(); 0u16; CLAUSES]?;
    let mut out = vec![in rt.alloc(); 0u8; WRITTEN]?;
    let len = write(&text, &mut literals, &mut ends, &mut out).unwrap();
    io::writer(rt).write_all(&out[..len])
}

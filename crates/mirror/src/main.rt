// Reads formula.qdimacs and prints the formula with every literal negated, or the line that reports the first fault of the text.
#![tactic(auto)]

use posting::print_written;
use std::io;

fn main(rt: HostRuntime) -> io::Result<()> {
    print_written(&rt, mirroring::mirror)
}

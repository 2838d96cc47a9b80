// The schedule printer as a program: a meter file on standard input, its schedule on standard output.
#![tactic(auto)]

use input::read_full;
use schedule_printing::print_schedule;
use std::io;

// A twin of the main of `response`: a function of both would take the printer as a closure, whose clauses are longer than these lines.
fn main(rt: HostRuntime) -> io::Result<()> {
    // A byte more than a file may have, so that a longer one is noticed, and refused.
    let mut space = [0u8; 65537];
    let length = read_full(&mut rt.stdin(), &mut space)?;
    print_schedule(&mut rt.stdout(), &space[..length])?;
    Ok(())
}

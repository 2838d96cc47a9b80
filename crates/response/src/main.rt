// The response printer as a program: a meter file on standard input, the response times of its tasks on standard output.
#![tactic(auto)]

use input::read_full;
use response_printing::print_response;
use std::io;

// A twin of the main of `schedule`: a function of both would take the printer as a closure, whose clauses are longer than these lines.
fn main(rt: HostRuntime) -> io::Result<()> {
    // A byte more than a file may have, so that a longer one is noticed, and refused.
    let mut space = [0u8; 65537];
    let length = read_full(&mut rt.stdin(), &mut space)?;
    print_response(&mut rt.stdout(), &space[..length])?;
    Ok(())
}

// The first case of 01: (4,1) and (6,2), phases 0, from a fresh start over six words. Prints the six picks as numbers, 255 for idle.
#![tactic(auto)]

use rules::{Refusal, Table};
use runs::run;
use scheduler::EMPTY;
use std::io;

// A field of the two partitions; the other places are 0.
fn two(x: u16, y: u16) -> [u16; 16] {
    let mut field = [0; 16];
    field[0] = x;
    field[1] = y;
    field
}

fn first_picks() -> Result<[u8; 6], Refusal> {
    let t = Table {
        count: 2,
        period: two(4, 6),
        budget: two(1, 2),
        phase: [0; 16],
    };
    let words = [20000, 40000, 60000, 5, 50000, 0];
    let mut picks = [0; 6];
    run(EMPTY.fresh(t)?, t, &words, &mut picks)?;
    Ok(picks)
}

fn main(rt: HostRuntime) -> io::Result<()> {
    let Ok(picks) = first_picks() else {
        return println!(rt; "refused");
    };
    for pick in picks {
        println!(rt; "{pick}")?;
    }
    Ok(())
}

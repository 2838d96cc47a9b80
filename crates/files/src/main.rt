// Runs both printers over the files that its arguments name: for each its name, its schedule and its response times.
#![tactic(auto)]

use input::read_full;
use response_printing::print_response;
use schedule_printing::print_schedule;
use std::env::FillError;
use std::rt::{Env, Files};
use std::{fs, io, str};

// Both outputs of one file.
fn print_both(rt: &impl Print, file: &[u8]) -> io::Result<()> {
    print_schedule(&mut io::writer(rt), file)?;
    println!(rt; "--")?;
    print_response(&mut io::writer(rt), file)?;
    Ok(())
}

// The file of one name; one that can't be opened is said so.
fn print_named(rt: &(impl Files + Print), name: &[u8]) -> io::Result<()> {
    print!(rt; "== ")?;
    rt.write_all(name)?;
    println!(rt; "")?;
    let opened = str::from_utf8(name)
        .ok()
        .and_then(|path| fs::open(rt, path).ok());
    let Some(mut file) = opened else {
        return println!(rt; "can't be opened");
    };
    let mut space = [0u8; 65537];
    let length = read_full(&mut file, &mut space)?;
    print_both(rt, &space[..length])
}

fn main(rt: HostRuntime) -> io::Result<()> {
    // By number: std's `args` wants a heap.
    for i in 1..usize::MAX {
        let mut space = [0u8; 256];
        let length = match rt.arg(i, &mut space) {
            Ok(length) => length,
            // A name that doesn't fit is taken for none.
            Err(FillError::TooLong) => 0,
            Err(FillError::NotPresent) => break,
        };
        print_named(&rt, &space[..length])?;
    }
    Ok(())
}

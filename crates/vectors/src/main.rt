// Figures of 000 and 01, run through the calls: each is printed beside what the paper says.
#![tactic(auto)]

use draw::{Weighed, weights};
use responses::task_response;
use rules::{Refusal, Table, Tasks};
use scheduler::EMPTY;
use standing::response;
use std::io;

// ---- 000, tables I and II, in tenths of a millisecond

// 16 per cent: a partition's budget of its period.
fn budget_of(period: u16) -> u16 {
    period / 25 * 4
}

// 3 per cent: a task's cost of its gap.
fn cost_of(gap: u16) -> u16 {
    gap / 100 * 3
}

fn five_partitions() -> Table {
    let mut t = Table {
        count: 5,
        period: [0; 16],
        budget: [0; 16],
        phase: [0; 16],
    };
    let periods = [200u16, 300, 400, 500, 600];
    for (i, &period) in periods.iter().enumerate() {
        t.period[i] = period;
        t.budget[i] = budget_of(period);
    }
    t
}

// The gaps of the five tasks of each partition.
const GAPS: [u16; 25] = [
    400, 800, 1600, 3200, 6400, 600, 1200, 2400, 4800, 9600, 800, 1600, 3200, 6400, 12800, 1000,
    2000, 4000, 8000, 16000, 1200, 2400, 4800, 9600, 19200,
];

fn five_tasks_each() -> Tasks {
    let mut tasks = Tasks {
        count: 25,
        partition: [0; 64],
        gap: [0; 64],
        cost: [0; 64],
    };
    for (i, &gap) in GAPS.iter().enumerate() {
        // `as`, since an index becomes narrower
        tasks.partition[i] = (i / 5) as u16;
        tasks.gap[i] = gap;
        tasks.cost[i] = cost_of(gap);
    }
    tasks
}

// What 000 has in table II for TimeDice, analytic, in hundredths of a millisecond.
const TABLE_TWO: [u64; 25] = [
    3480, 5520, 7680, 23520, 61680, 5220, 8280, 11520, 35280, 92520, 6960, 11040, 15360, 47040,
    123360, 8700, 13800, 19200, 58800, 154200, 10440, 16560, 23040, 70560, 185040,
];

// A task by 000's numbers, and its response, with two places after the point as 000 prints them.
fn show_response(
    rt: &impl Print,
    i: usize,
    said: Result<u64, Refusal>,
    paper: u64,
) -> io::Result<()> {
    let Ok(tenths) = said else {
        return println!(rt; "refused");
    };
    print!(rt;
        " {},{} {}.{}0",
        i / 5 + 1,
        i % 5 + 1,
        tenths / 10,
        tenths % 10
    )?;
    println!(rt; " {}.{:02}", paper / 100, paper % 100)
}

fn show_table_two(rt: &impl Print, t: Table, tasks: Tasks) -> io::Result<()> {
    for (i, &paper) in TABLE_TWO.iter().enumerate() {
        show_response(rt, i, task_response(t, tasks, i), paper)?;
    }
    Ok(())
}

// ---- 000, the car of figure 5, in milliseconds

fn car() -> Table {
    Table {
        count: 4,
        period: [10, 20, 30, 50, 0, 0, 0, 0, 0, 0, 0, 0, 0, 0, 0, 0],
        budget: [1, 10, 3, 5, 0, 0, 0, 0, 0, 0, 0, 0, 0, 0, 0, 0],
        phase: [0; 16],
    }
}

// Each partition by 000's number, and its R.
fn show_rs(rt: &impl Print, t: Table) -> io::Result<()> {
    let papers = [1u64, 12, 15, 20];
    for (h, paper) in papers.iter().enumerate() {
        let Ok(Some(ticks)) = response(t, h) else {
            println!(rt; "no R within its period")?;
            continue;
        };
        println!(rt; " {} {ticks} {paper}", h + 1)?;
    }
    Ok(())
}

// ---- the weights of a fresh start, beside 65,536 times the share that 000 gives

fn fresh_weights(t: Table) -> Result<Weighed, Refusal> {
    weights(t, &EMPTY.fresh(t)?.pairs)
}

// A candidate by 000's number; 255 is idle, as in the list.
fn show_name(rt: &impl Print, pick: u8) -> io::Result<()> {
    if pick == 255 {
        return print!(rt; " idle");
    }
    print!(rt; " {}", u64::from(pick) + 1)
}

// As many candidates as there are shares, which are in hundredths.
fn show_weights(rt: &impl Print, t: Table, shares: &[u64]) -> io::Result<()> {
    let Ok(weighed) = fresh_weights(t) else {
        return println!(rt; "refused");
    };
    let listed = weighed.list.iter().zip(weighed.weights.iter());
    for ((&pick, weight), share) in listed.zip(shares) {
        show_name(rt, pick)?;
        println!(rt; " {weight} {}.{:02}", share / 100, share % 100)?;
    }
    Ok(())
}

// ---- a task whose r is 2^32

fn show_late(rt: &impl Print) -> io::Result<()> {
    let mut t = Table {
        count: 1,
        period: [0; 16],
        budget: [0; 16],
        phase: [0; 16],
    };
    t.period[0] = 4096;
    t.budget[0] = 1;
    let mut tasks = Tasks {
        count: 17,
        partition: [0; 64],
        gap: [65535; 64],
        cost: [65535; 64],
    };
    tasks.cost[16] = 16;
    let Ok(ticks) = task_response(t, tasks, 16) else {
        return println!(rt; "refused");
    };
    println!(rt; " {ticks} 0")
}

fn main(rt: HostRuntime) -> io::Result<()> {
    let five = five_partitions();
    println!(rt; "000, table II: responses of tasks in ms, here and there")?;
    show_table_two(&rt, five, five_tasks_each())?;
    println!(rt; "000, figure 5: R in ms, here and in 01")?;
    show_rs(&rt, car())?;
    println!(rt; "000, figure 5: fresh weights, here and 65536 times 000's share")?;
    show_weights(&rt, car(), &[655360, 3276800, 655360, 655360, 1310720])?;
    println!(rt; "000, table I: fresh weights, here and 65536 times 000's share")?;
    let shares = [1048576, 1048576, 1048576, 1048576, 1048576, 1310720];
    show_weights(&rt, five, &shares)?;
    println!(rt; "a task whose r is 2^32: its response, here and in 01 (0 for late)")?;
    show_late(&rt)
}

// The plain records of the scheduler, and the enum of its refusals. The rules about them are definitions, in specs/.
#![tactic(auto)]

// A partition: period T, budget B and phase, in ticks.
#[repr(C)]
#[derive(Clone, Copy)]
pub struct Part {
    pub period: u16,
    pub budget: u16,
    pub phase: u16,
}

// The partition table. Index 0 has the highest rank. Entries from `count` on are no part of it.
// An array for each field, here, in `Pairs` and in `Tasks`, since C has them so (include/nandoquip.h).
#[repr(C)]
#[derive(Clone, Copy)]
pub struct Table {
    pub period: [u16; 16],
    pub budget: [u16; 16],
    pub phase: [u16; 16],
    pub count: usize,
}

// The sixteen pairs: what is left of each budget, and the ticks until it comes again. Pairs beyond the table are 0, 0.
#[repr(C)]
#[derive(Clone, Copy)]
pub struct Pairs {
    pub b: [u16; 16],
    pub o: [u16; 16],
}

// A task: the partition that it runs in, its shortest gap p and its cost e, in ticks.
#[repr(C)]
#[derive(Clone, Copy)]
pub struct Task {
    pub partition: u16,
    pub gap: u16,
    pub cost: u16,
}

// The task table. Tasks of one partition rank in its order. Entries from `count` on are no part of it.
#[repr(C)]
#[derive(Clone, Copy)]
pub struct Tasks {
    pub count: usize,
    pub partition: [u16; 64],
    pub gap: [u16; 64],
    pub cost: [u16; 64],
}

// Why a call was refused. Which number each case has, and what its second number is, says specs/Refusals.antt.
#[derive(Clone, Copy)]
pub enum Refusal {
    BadPartition(usize),
    NotAdmitted(usize),
    BadPair(usize),
    NoWord,
    NotListed(usize),
    NotActive(usize),
    ShortBuffer(usize),
    BadRecord(usize),
    BadTask(usize),
}

// A whole meter file: the tables that it holds and where its events begin, in one pass, judged and refused by number.
#![tactic(auto)]

ghost use Rattle.std.specs.Prelude.{◌≡◌, ◌<◌, slice_set};
ghost use Rattle.meter.specs.Forms.{number_of};
ghost use Rattle.whole_file.specs.Inner.{empty, with_partition, with_task, with_record, LoadIs, JudgeHeldIs};
ghost use Rattle.whole_file.specs.Promises.{JudgeFileIs};

use little_endian::two;
use meter::{Kind, METER_KINDS, Record, payload, read_record};
use ranges::judge_table;
use rules::{Refusal, Table, Tasks};
use standing::admission;
use tasks::judge_tasks;

// What a meter file holds: its partitions, its tasks, and where its first word or release begins, or its end.
#[derive(Clone, Copy)]
pub struct MeterFile {
    pub table: Table,
    pub tasks: Tasks,
    pub events: usize,
}

fn nothing() -> MeterFile
    ensures { result ≡ empty }
{
    MeterFile {
        table: Table {
            period: [0; 16],
            budget: [0; 16],
            phase: [0; 16],
            count: 0,
        },
        tasks: Tasks {
            count: 0,
            partition: [0; 64],
            gap: [0; 64],
            cost: [0; 64],
        },
        events: 0,
    }
}

// A number put in a place; past the last place it is put nowhere.
fn put(places: &mut [u16], at: usize, x: u16)
    ensures { places.new ≡ slice_set places.old at x }
{
    if at < places.len() {
        places[at] = x;
    }
}

// One more partition. Those past the sixteenth are only counted.
fn with_partition(mut t: Table, part: &[u8]) -> Table
    requires { t.count < 65536 }
    ensures { result ≡ with_partition t part.now }
{
    let n = t.count;
    put(&mut t.period, n, two(part, 0));
    put(&mut t.budget, n, two(part, 2));
    put(&mut t.phase, n, two(part, 4));
    t.count += 1;
    t
}

// One more task. Those past the sixty-fourth are only counted. Beside `with_partition`, since C has two structs with fields of their own names.
fn with_task(mut k: Tasks, part: &[u8]) -> Tasks
    requires { k.count < 65536 }
    ensures { result ≡ with_task k part.now }
{
    let m = k.count;
    put(&mut k.partition, m, two(part, 0));
    put(&mut k.gap, m, two(part, 2));
    put(&mut k.cost, m, two(part, 4));
    k.count += 1;
    k
}

// One more record, with its payload; the events begin past the last partition or task. What is held is lent: handed on by value it was copied for each record.
// That the counts don't wrap stands in three `requires`, not in an invariant: C gives its tables with any count.
fn with_record(held: &mut MeterFile, found: Record, part: &[u8])
    requires { (held.old.table.count < 65536) × (held.old.tasks.count < 65536) }
    ensures { held.new ≡ with_record held.old (number_of found.kind) part.now found.next }
{
    match found.kind {
        Kind::Partition => {
            held.table = with_partition(held.table, part);
            held.events = found.next;
        }
        Kind::Task => {
            held.tasks = with_task(held.tasks, part);
            held.events = found.next;
        }
        Kind::Word | Kind::Release => {}
    }
}

// All records, in one pass. Refusal 8.
#[tactic(auto, using(meter::proofs::Records::told_record, crate::proofs::Loading::load_begins, crate::proofs::Loading::load_goes_on))]
fn load(file: &[u8]) -> Result<MeterFile, Refusal>
    ensures { LoadIs file.now result }
{
    let mut held = nothing();
    let mut before = 0u16;
    let mut at = 0;
    while at < file.len() {
        let found = read_record(&METER_KINDS, before, file, at)?;
        with_record(&mut held, found, payload(&METER_KINDS, before, file, at));
        before = u16::from(found.kind);
        at = found.next;
    }
    Ok(held)
}

// What is against the tables of a file. Refusals 1, 9 and 2.
#[tactic(auto, using(crate::proofs::Calls::held_table_bad, crate::proofs::Calls::held_tasks_bad, crate::proofs::Calls::held_refused, crate::proofs::Calls::held_fails, crate::proofs::Calls::held_passes))]
fn judge_held(t: &Table, k: &Tasks) -> Result<(), Refusal>
    ensures { JudgeHeldIs t.now k.now result }
{
    judge_table(t)?;
    judge_tasks(t.count, k)?;
    match admission(*t)? {
        Some(h) => Err(Refusal::NotAdmitted(h)),
        None => Ok(()),
    }
}

// A whole file: what it holds, or why it is refused. Refusals 8, 1, 9 and 2.
#[tactic(auto, using(crate::proofs::Calls::file_malformed, crate::proofs::Calls::file_refused, crate::proofs::Calls::file_good))]
pub fn judge_file(file: &[u8]) -> Result<MeterFile, Refusal>
    ensures { JudgeFileIs file.now result }
{
    let held = load(file)?;
    judge_held(&held.table, &held.tasks)?;
    Ok(held)
}

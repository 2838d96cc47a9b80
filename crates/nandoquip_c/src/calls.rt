// The calls with states by value, exported.
ghost use Rattle.nandoquip.specs.Calls.{FreshInNumbers, AdmissionInNumbers, PartitionResponseInNumbers, StandingInNumbers, BusyLengthInNumbers, CandidatesInNumbers, WeightsInNumbers, DecideInNumbers, RunInNumbers, TaskResponseInNumbers};

use numbers::{After, Lasting, ListNumbers, Picked, Responded, Tested, WeightNumbers};
use rules::{Table, Tasks};
use scheduler::State;

// A fresh start, whatever the old state was. Refusals 1 and 2.
#[unsafe(no_mangle)]
pub extern "C" fn nandoquip_fresh(state: State, table: Table) -> After
    ensures { FreshInNumbers table state result }
{
    nandoquip::nandoquip_fresh(state, table)
}

// Admission. Refusal 1.
#[unsafe(no_mangle)]
pub extern "C" fn nandoquip_admission(table: Table) -> Tested
    ensures { AdmissionInNumbers table result }
{
    nandoquip::nandoquip_admission(table)
}

// R of a partition, where R is at most its period. Refusal 1.
#[unsafe(no_mangle)]
pub extern "C" fn nandoquip_partition_response(table: Table, partition: usize) -> Lasting
    ensures { PartitionResponseInNumbers table partition result }
{
    nandoquip::nandoquip_partition_response(table, partition)
}

// The standing test. Refusals 1 and 3.
#[unsafe(no_mangle)]
pub extern "C" fn nandoquip_standing(table: Table, state: State) -> Tested
    ensures { StandingInNumbers table state result }
{
    nandoquip::nandoquip_standing(table, state)
}

// The busy length of a partition with an inversion, where it is within the deadline. Refusals 1 and 3.
#[unsafe(no_mangle)]
pub extern "C" fn nandoquip_busy_length(
    table: Table,
    state: State,
    partition: usize,
    inversion: u32,
) -> Lasting
    ensures { BusyLengthInNumbers table state partition inversion result }
{
    nandoquip::nandoquip_busy_length(table, state, partition, inversion)
}

// The candidate list. Refusals 1 and 3.
#[unsafe(no_mangle)]
pub extern "C" fn nandoquip_candidates(table: Table, state: State) -> ListNumbers
    ensures { CandidatesInNumbers table state result }
{
    nandoquip::nandoquip_candidates(table, state)
}

// The candidate list and its weights. Refusals 1 and 3.
#[unsafe(no_mangle)]
pub extern "C" fn nandoquip_weights(table: Table, state: State) -> WeightNumbers
    ensures { WeightsInNumbers table state result }
{
    nandoquip::nandoquip_weights(table, state)
}

// One decision over lent words: it uses the first. Refusals 1, 3 and 4.
#[unsafe(no_mangle)]
pub extern "C" fn nandoquip_decide(table: Table, state: State, words: &[u32]) -> Picked
    ensures { DecideInNumbers table state words.now result }
{
    nandoquip::nandoquip_decide(table, state, words)
}

// A run over lent words into a lent buffer, a byte for each pick. Refusals 1, 3 and 7.
#[unsafe(no_mangle)]
pub extern "C" fn nandoquip_run(
    state: State,
    table: Table,
    words: &[u32],
    picks: &mut [u8],
) -> After
    ensures { RunInNumbers table state words.now picks.old result picks.new }
{
    nandoquip::nandoquip_run(state, table, words, picks)
}

// The response of a task beside its partition table. Refusals 1 and 9.
#[unsafe(no_mangle)]
pub extern "C" fn nandoquip_task_response(table: Table, tasks: Tasks, task: usize) -> Responded
    ensures { TaskResponseInNumbers table tasks task result }
{
    nandoquip::nandoquip_task_response(table, tasks, task)
}

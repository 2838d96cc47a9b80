// The response times of tasks: how long a task takes at worst, from its own partition's numbers alone.
#![tactic(auto)]

ghost use Rattle.std.specs.Prelude.{◌≡◌, cond, suc, ◌+◌, ◌*◌, ◌<◌, ◌≤◌, eqb};
ghost use Rattle.basis.specs.Words.{◌!◌, ceil, sum_below};
ghost use Rattle.basis.specs.Reckoned.{Reckoned};
ghost use Rattle.rules.specs.TaskResponse.{settled_response, ticks_or_late, own_tasks, response_of_task};
ghost use Rattle.responses.specs.Inner.{Ready};
ghost use Rattle.responses.specs.Promises.{TaskResponseIs};

use ranges::judge_table;
use rules::{Refusal, Table, Task, Tasks};
use tasks::judge_task;

// The quotient rounded up; by 0 it is 0.
#[tactic(auto, using(crate::proofs::Rounds::by_nothing, crate::proofs::Rounds::quotient))]
fn rounded_up(x: u64, y: u16) -> u64
    ensures { Reckoned (x + 1) (ceil x y) result }
{
    if y == 0 {
        return 0;
    }
    x.div_ceil(u64::from(y))
}

// Task `i` of the table. That a place is one of the 64 is a clause here and below: a type for it would be opened at each index.
fn task(k: &Tasks, i: usize) -> Task
    requires { i < 64 }
    ensures { result ≡ record { partition = k.now.partition ! i; gap = k.now.gap ! i; cost = k.now.cost ! i } }
{
    Task {
        partition: k.partition[i],
        gap: k.gap[i],
        cost: k.cost[i],
    }
}

// What a task asks for within a window, where it is of partition `h`: ceil(window/p)·e.
fn asked(x: Task, h: u16, window: u64) -> u64
    requires { window < 65536 }
    ensures { Reckoned 4294967296 (cond (eqb x.partition h) (ceil window x.gap * x.cost) 0) result }
{
    if x.partition != h {
        return 0;
    }
    rounded_up(window, x.gap) * u64::from(x.cost)
}

// What the tasks of partition `h` before task `i` ask for within a window.
fn asked_above(k: &Tasks, h: u16, i: usize, window: u64) -> u64
    requires { (i ≤ 64) × (window < 65536) }
    ensures { Reckoned 274877906945 (sum_below i (λ j. cond (eqb (k.now.partition ! j) h) (ceil window (k.now.gap ! j) * k.now.cost ! j) 0)) result }
{
    // Over places, since the table has an array for each field, as C reads it.
    (0..i).map(|j| asked(task(k, j), h, window)).sum()
}

// How long a load takes that is served by a budget in each period, the last part of it late: L + ceil(L/B)·(T − B).
fn served(load: u64, budget: u16, away: u64) -> u64
    requires { (load < 549755813888) × (away < 65536) }
    ensures { Reckoned 36028797018963968 (load + ceil load budget * away) result }
{
    load + rounded_up(load, budget) * away
}

// From r = e, until r stands still or T − B + r exceeds p: T − B + r, or 0 for late, which is how 01 has the answer.
fn settled(k: &Tasks, i: usize, x: Task, period: u16, budget: u16) -> u64
    requires { (i ≤ 64) × (budget ≤ period) }
    ensures { result ≡ ticks_or_late period budget (settled_response period budget (own_tasks i k.now.partition k.now.gap k.now.cost x.partition) (record { p = x.gap; e = x.cost })) }
{
    let away = u64::from(period - budget);
    let limit = u64::from(x.gap);
    let own = u64::from(x.cost);
    let mut r = own;
    while away + r <= limit {
        let above = asked_above(k, x.partition, i, away + r);
        let next = served(own + above, budget, away);
        if next == r {
            return away + r;
        }
        r = next;
    }
    0
}

// The response of task `i`; the tasks after it don't count.
#[tactic(auto, using(laws::proofs::TaskResponse::response_in_place))]
fn response_of(t: &Table, k: &Tasks, i: usize) -> u64
    requires { Ready t.now.period t.now.budget k.now.partition i }
    ensures { result ≡ response_of_task t.now.period t.now.budget (suc i) k.now.partition k.now.gap k.now.cost i }
{
    let x = task(k, i);
    let h = usize::from(x.partition);
    settled(k, i, x, t.period[h], t.budget[h])
}

// The response of task `i` beside its partition table, 0 for late. Refusals 1 and 9.
#[tactic(auto, using(crate::proofs::Calls::refused_table, crate::proofs::Calls::refused_task, crate::proofs::Calls::ready, crate::proofs::Calls::responds))]
pub fn task_response(t: Table, tasks: Tasks, i: usize) -> Result<u64, Refusal>
    ensures { TaskResponseIs t tasks i result }
{
    judge_table(&t)?;
    judge_task(t.count, &tasks, i)?;
    Ok(response_of(&t, &tasks, i))
}

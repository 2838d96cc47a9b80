// A table of tasks, judged and refused by number.
#![tactic(auto)]

ghost use Rattle.std.specs.Prelude.{◌≡◌};
ghost use Rattle.rules.specs.Numbers.{task_in_range};
ghost use Rattle.tasks.specs.Promises.{JudgeTasksIs, JudgeTaskIs};

use rules::{Refusal, Tasks};

// A task names one of the `n` partitions. A gap is at most 65,535 by its type. Its fields come one by one, as C has them in the table.
fn task_in_range(n: usize, partition: u16, gap: u16, cost: u16) -> bool
    ensures { result ≡ task_in_range n partition gap cost }
{
    if n <= usize::from(partition) {
        return false;
    }
    if gap == 0 {
        return false;
    }
    if cost == 0 {
        return false;
    }
    cost <= gap
}

// Refusal 9, of the tasks beside `n` partitions.
pub fn judge_tasks(n: usize, k: &Tasks) -> Result<(), Refusal>
    ensures { JudgeTasksIs n k.now result }
{
    if k.count > 64 {
        return Err(Refusal::BadTask(64));
    }
    let bad = (0..k.count).find(|&j| !task_in_range(n, k.partition[j], k.gap[j], k.cost[j]));
    match bad {
        Some(j) => Err(Refusal::BadTask(j)),
        None => Ok(()),
    }
}

// Refusal 9 once more: a task asked for that isn't there, after the fields.
pub fn judge_task(n: usize, k: &Tasks, i: usize) -> Result<(), Refusal>
    ensures { JudgeTaskIs n k.now i result }
{
    judge_tasks(n, k)?;
    if k.count <= i {
        return Err(Refusal::BadTask(i));
    }
    Ok(())
}

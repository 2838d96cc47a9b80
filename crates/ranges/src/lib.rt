// What is in range: a partition table, judged and refused by number.
#![tactic(auto)]

ghost use Rattle.std.specs.Prelude.{◌≡◌};
ghost use Rattle.basis.specs.Words.{within};
ghost use Rattle.rules.specs.Numbers.{partition_in_range};
ghost use Rattle.ranges.specs.Promises.{JudgeTableIs, JudgeIndexIs};

use rules::{Refusal, Table};

// At least `low` and at most `high`.
fn lies_within(low: u16, high: u16, x: u16) -> bool
    ensures { result ≡ within low high x }
{
    if x < low {
        return false;
    }
    x <= high
}

// A partition's fields come one by one, as C has them in the table.
fn partition_in_range(period: u16, budget: u16, phase: u16) -> bool
    ensures { result ≡ partition_in_range period budget phase }
{
    if !lies_within(1, 4096, period) {
        return false;
    }
    if !lies_within(1, period, budget) {
        return false;
    }
    lies_within(0, period - 1, phase)
}

// Refusal 1. A count is judged before the fields.
pub fn judge_table(t: &Table) -> Result<(), Refusal>
    ensures { JudgeTableIs t.now result }
{
    if t.count == 0 {
        return Err(Refusal::BadPartition(0));
    }
    if t.count > 16 {
        return Err(Refusal::BadPartition(16));
    }
    // A loop, since `find`, here and in `pairs`, cost the hook 241 instructions more at 16 partitions.
    for i in 0..t.count {
        if !partition_in_range(t.period[i], t.budget[i], t.phase[i]) {
            return Err(Refusal::BadPartition(i));
        }
    }
    Ok(())
}

// Refusal 1 once more: a partition asked for that isn't there, after the fields.
pub fn judge_index(t: &Table, h: usize) -> Result<(), Refusal>
    ensures { JudgeIndexIs t.now h result }
{
    judge_table(t)?;
    if t.count <= h {
        return Err(Refusal::BadPartition(h));
    }
    Ok(())
}

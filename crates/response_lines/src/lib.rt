// The response printer, one line a call: the header, a row for each task, and the end.
#![tactic(auto)]

ghost use Rattle.std.specs.Prelude.{◌≡◌, ◌<◌};
ghost use Rattle.rules.specs.TaskResponse.{rank_of};
ghost use Rattle.response_lines.specs.Promises.{TasksJudgedIs, PlainIs, RowIs, ResponseLineIs};

use lines::{Line, Made, put_line};
use ranges::judge_table;
use responses::task_response;
use rules::{Refusal, Table, Tasks};
use tasks::judge_tasks;

// What comes next: the header, or the row of a task. After the last task it is the end.
#[derive(Clone, Copy)]
pub enum Cursor {
    Header,
    Task(usize),
}

// The rank of task `i` in its partition: how many of the tasks before it are of the same one. The place's bound is a clause, as in `responses`.
fn rank_of(partition: &[u16; 64], i: usize) -> usize
    requires { i < 64 }
    ensures { result ≡ rank_of partition.now i }
{
    let own = partition[i];
    partition[..i].iter().filter(|&&p| p == own).count()
}

// What is against the table and the tasks. Refusals 1 and 9.
#[tactic(auto, using(crate::proofs::Puts::table_stops, crate::proofs::Puts::tasks_decide))]
fn judged(t: &Table, tasks: &Tasks) -> Result<(), Refusal>
    ensures { TasksJudgedIs t.now tasks.now result }
{
    judge_table(t)?;
    judge_tasks(t.count, tasks)
}

// A line that no task makes. Refusals 1, 9 and 7.
#[tactic(auto, using(crate::proofs::Puts::plain_refused, crate::proofs::Puts::plain_put))]
fn plain_line(
    t: &Table,
    tasks: &Tasks,
    line: Line,
    next: Option<Cursor>,
    buf: &mut [u8],
) -> Result<Made<Cursor>, Refusal>
    ensures { PlainIs t.now tasks.now line next buf.old result buf.new }
{
    judged(t, tasks)?;
    put_line(line, next, buf)
}

// The row of task `i`. Refusals 1, 9, also for a task that isn't there, and 7.
#[tactic(auto, using(crate::proofs::Rows::row_there, crate::proofs::Rows::row_put, crate::proofs::Rows::row_refused))]
fn row_line(t: Table, tasks: Tasks, i: usize, buf: &mut [u8]) -> Result<Made<Cursor>, Refusal>
    ensures { RowIs t tasks i buf.old result buf.new }
{
    let ticks = task_response(t, tasks, i)?;
    let rank = rank_of(&tasks.partition, i);
    let line = Line::Response(tasks.partition[i], rank, ticks);
    put_line(line, Some(Cursor::Task(i + 1)), buf)
}

// The next line. Refusals 1, 9 and 7.
pub fn response_line(
    t: Table,
    tasks: Tasks,
    cursor: Cursor,
    buf: &mut [u8],
) -> Result<Made<Cursor>, Refusal>
    ensures { ResponseLineIs t tasks cursor buf.old result buf.new }
{
    match cursor {
        Cursor::Header => {
            let first = Some(Cursor::Task(0));
            plain_line(&t, &tasks, Line::ResponseHeader, first, buf)
        }
        Cursor::Task(i) => {
            if i == tasks.count {
                // `as`: there is no `From` of a usize to a u64.
                return plain_line(&t, &tasks, Line::End(i as u64), None, buf);
            }
            row_line(t, tasks, i, buf)
        }
    }
}

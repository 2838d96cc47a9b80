// The whole schedule of a file, page by page through a buffer, to a writer. The answer is how many bytes it has.
#![tactic(auto)]

ghost use Rattle.std.specs.Prelude.{◌≡◌, length, IfOk, OnErr, OnOk};
ghost use Rattle.std.specs.Io.KnownBytes.{Appends};
ghost use Rattle.file_rules.specs.Printers.{schedule_output};
ghost use Rattle.schedule_lines.specs.declared.Cursor.TheVariants.{Header};
ghost use Rattle.outputs.specs.ScheduleMoments.{At, Moment, to_write};
ghost use Rattle.sending.specs.Writing.{AppendsPart};
ghost use Rattle.schedule_printing.specs.Pages.{PageIs};
ghost use Rattle.schedule_printing.specs.Promises.{PrintScheduleIs};

use refusal_printing::print_refusal;
use rules::{Refusal, Table};
use schedule_lines::{Cursor, schedule_line};
use scheduler::{EMPTY, State};
use sending::write_whole;
use std::io;
use std::io::Write;
use whole_file::judge_file;

// How many bytes of its buffer a page takes, the state after it, and what is to come: lines from a cursor on, nothing, or the line of a refusal.
#[derive(Clone, Copy)]
struct Page {
    used: usize,
    state: State,
    rest: Result<Option<Cursor>, Refusal>,
}

// Line by line into the buffer, until there is no more, a line is refused, or another might not fit.
fn fill_page(file: &[u8], t: Table, start: State, from: Cursor, out: &mut [u8]) -> Page
    requires { (length out.old ≡ 4096) × (At file.now t start.pairs from) }
    ensures { PageIs file.now t start from result out.new }
{
    let mut used = 0;
    let mut state = start;
    let mut next = Some(from);
    while used <= 4032 {
        let Some(cursor) = next else {
            break;
        };
        match schedule_line(file, t, state, cursor, &mut out[used..]) {
            Ok(printed) => {
                used += printed.made.length;
                state = printed.state;
                next = printed.made.next;
            }
            Err(why) => {
                return Page {
                    used,
                    state,
                    rest: Err(why),
                };
            }
        }
    }
    Page {
        used,
        state,
        rest: Ok(next),
    }
}

// Page by page, until there is no more or a line is refused.
fn print_pages<W: Write>(
    to: &mut W,
    file: &[u8],
    t: Table,
    start: State,
    events: usize,
) -> io::Result<usize>
    requires { Moment file.now t start.pairs events 0 }
    ensures count { IfOk result (λ n. n ≡ length (to_write file.now t start.pairs (Header events))) }
    ensures bytes { OnOk result (Appends (W.contents to.old) (W.contents to.new)
        (to_write file.now t start.pairs (Header events))) }
    ensures err { OnErr result (AppendsPart (W.contents to.old) (W.contents to.new)
        (to_write file.now t start.pairs (Header events))) }
{
    let mut out = [0u8; 4096];
    let mut sent = 0;
    let mut state = start;
    let mut next = Some(Cursor::Header(events));
    while let Some(cursor) = next {
        let page = fill_page(file, t, state, cursor, &mut out);
        write_whole(to, &out[..page.used])?;
        sent += page.used;
        state = page.state;
        next = match page.rest {
            Ok(next) => next,
            Err(why) => return Ok(sent + print_refusal(to, why)?),
        };
    }
    Ok(sent)
}

// The whole schedule of a file, refused or not. An error is the writer's own, or WriteZero where it takes no more; then it holds a first part of the output.
pub fn print_schedule<W: Write>(to: &mut W, file: &[u8]) -> io::Result<usize>
    ensures count { IfOk result (λ n. PrintScheduleIs file.now n) }
    ensures bytes { OnOk result (Appends (W.contents to.old) (W.contents to.new) (schedule_output file.now)) }
    ensures err { OnErr result (AppendsPart (W.contents to.old) (W.contents to.new) (schedule_output file.now)) }
{
    // Not `?`: a refused file is no error, its line is the output.
    let held = match judge_file(file) {
        Ok(held) => held,
        Err(why) => return print_refusal(to, why),
    };
    // The table of a judged file is admitted, so its fresh start isn't refused.
    let start = EMPTY.fresh(held.table).unwrap();
    print_pages(to, file, held.table, start, held.events)
}

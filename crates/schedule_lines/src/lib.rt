// The schedule printer, one line a call: the header, a line for each word or release, and the end.
#![tactic(auto)]

ghost use Rattle.std.specs.Prelude.{◌≡◌};
ghost use Rattle.schedule_lines.specs.Coming.{counted_on};
ghost use Rattle.schedule_lines.specs.Promises.{SizeJudgedIs, PlainIs, ToldIs, RefusedIs, EventIs, ScheduleLineIs};

use lines::{Line, Made, line_length, put_line};
use replay::{Event, replay};
use rules::{Refusal, Table};
use scheduler::State;

// What comes next: the header, with the offset where the events begin, or the record at an offset after so many ticks. At the file's end it is the end.
#[derive(Clone, Copy)]
pub enum Cursor {
    Header(usize),
    Record(usize, u64),
}

// The state after a line, and what was made. A refusal leaves the caller the state that was given, and nothing is written.
#[derive(Clone, Copy)]
pub struct Printed {
    pub state: State,
    pub made: Made<Cursor>,
}

// One tick more. A count that can't grow stays; no file has so many words.
#[tactic(auto, unfolding(crate::specs::Coming::counted_on))]
fn counted_on(ticks: u64) -> u64
    ensures { result ≡ counted_on ticks }
{
    ticks.saturating_add(1)
}

// What is against the file's size, the table and the state. Refusals 8, 1 and 3. The three go one by one through this file, as `schedule_line` has them: one changes and two stay.
#[tactic(auto, using(crate::proofs::Puts::too_large, crate::proofs::Puts::judged_on))]
fn judged(file: &[u8], t: Table, state: State) -> Result<(), Refusal>
    ensures { SizeJudgedIs t state file.now result }
{
    if file.len() > 65536 {
        return Err(Refusal::BadRecord(65536));
    }
    state.judged(t)
}

// A line that no record makes. Refusals 8, 1, 3 and 7.
#[tactic(auto, using(crate::proofs::Puts::plain_refused))]
fn plain_line(
    file: &[u8],
    t: Table,
    state: State,
    line: Line,
    next: Option<Cursor>,
    buf: &mut [u8],
) -> Result<Printed, Refusal>
    ensures { PlainIs t state file.now line next buf.old result buf.new }
{
    judged(file, t, state)?;
    let made = put_line(line, next, buf)?;
    Ok(Printed { state, made })
}

// The line of an event, and the ticks after it.
#[tactic(auto, unfolding(lines::specs::Lines::bytes_of))]
fn told(event: Event, ticks: u64) -> (Line, u64)
    ensures { ToldIs event ticks result }
{
    match event {
        Event::Ticked(pick) => (Line::Tick(ticks, pick), counted_on(ticks)),
        Event::Released(index) => (Line::Release(ticks, usize::from(index)), ticks),
    }
}

// Why there is no event. A release that is refused has a line too: for a buffer too short it is 7, before 6.
fn refused_event(ticks: u64, why: Refusal, room: usize) -> Refusal
    ensures { RefusedIs ticks why room result }
{
    if let Refusal::NotActive(index) = why {
        let needed = line_length(Line::Release(ticks, index));
        if room < needed {
            return Refusal::ShortBuffer(needed);
        }
    }
    why
}

// The line of the record at an offset. Refusals 8, 1, 3, 7 and 6.
#[tactic(auto, using(crate::proofs::Events::event_refused))]
fn event_line(
    file: &[u8],
    t: Table,
    state: State,
    at: usize,
    ticks: u64,
    buf: &mut [u8],
) -> Result<Printed, Refusal>
    ensures { EventIs t state file.now at ticks buf.old result buf.new }
{
    let room = buf.len();
    let replayed = replay(state, t, file, at).map_err(|why| refused_event(ticks, why, room))?;
    let (line, after) = told(replayed.event, ticks);
    let next = Some(Cursor::Record(replayed.next, after));
    let made = put_line(line, next, buf)?;
    Ok(Printed {
        state: replayed.state,
        made,
    })
}

// The next line. Refusals 8, 1, 3, 7 and 6.
pub fn schedule_line(
    file: &[u8],
    t: Table,
    state: State,
    cursor: Cursor,
    buf: &mut [u8],
) -> Result<Printed, Refusal>
    ensures { ScheduleLineIs t state file.now cursor buf.old result buf.new }
{
    match cursor {
        Cursor::Header(events) => {
            let first = Some(Cursor::Record(events, 0));
            plain_line(file, t, state, Line::ScheduleHeader, first, buf)
        }
        Cursor::Record(at, ticks) => {
            if at == file.len() {
                return plain_line(file, t, state, Line::End(ticks), None, buf);
            }
            event_line(file, t, state, at, ticks, buf)
        }
    }
}

// One record replayed: what a word or a release of a meter file does to the state.
#![tactic(auto)]

ghost use Rattle.std.specs.Prelude.{ℕ};
ghost use Rattle.file_rules.specs.Events.{ticked, released};
ghost use Rattle.scheduler.specs.States.{decision_of};
ghost use Rattle.replay.specs.Promises.{DoneIs, ReplayIs};

use little_endian::{four, two};
use meter::{Kind, METER_KINDS, payload, read_record};
use rules::{Refusal, Table};
use runs::step;
use scheduler::State;

// A tick for a pick, or a release of an index.
#[derive(Clone, Copy)]
pub enum Event {
    Ticked(u8),
    Released(u16),
}

// The state after a record, what happened, and where the next record begins. A refusal leaves the caller the state and the offset that were given.
#[derive(Clone, Copy)]
pub struct Replayed {
    pub state: State,
    pub event: Event,
    pub next: usize,
}

// A word makes a decision and its tick. Refusals 1 and 3.
#[tactic(auto, using(crate::proofs::Events::word_done, crate::proofs::Events::word_refused))]
fn replay_word(state: State, t: Table, word: u32, next: usize) -> Result<Replayed, Refusal>
    ensures { (at : ℕ) → DoneIs t state at next (ticked (decision_of t state word)) result }
{
    let stepped = step(state, t, word)?;
    Ok(Replayed {
        state: stepped.state,
        event: Event::Ticked(stepped.pick),
        next,
    })
}

// A release. Refusals 1, 3 and 6.
#[tactic(auto, using(crate::proofs::Events::release_refused))]
fn replay_release(state: State, t: Table, index: u16, next: usize) -> Result<Replayed, Refusal>
    ensures { (at : ℕ) → DoneIs t state at next (released index) result }
{
    let state = state.release(t, usize::from(index))?;
    Ok(Replayed {
        state,
        event: Event::Released(index),
        next,
    })
}

// The word or release at an offset. Refusals 8, 1, 3 and 6.
#[tactic(auto, using(crate::proofs::Events::record_refused))]
pub fn replay(state: State, t: Table, file: &[u8], at: usize) -> Result<Replayed, Refusal>
    ensures { ReplayIs t state file.now at result }
{
    // A word's number as the kind before: the reader takes any number, and after a word both words and releases are in order.
    let found = read_record(&METER_KINDS, 3, file, at)?;
    let part = payload(&METER_KINDS, 3, file, at);
    match found.kind {
        Kind::Word => replay_word(state, t, four(part, 0), found.next),
        _ => replay_release(state, t, two(part, 0), found.next),
    }
}

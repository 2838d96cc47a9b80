// What an operating system's partition hook calls: the state is lent, and the partition table is a run of records in kernel memory.
ghost use Rattle.nandoquip.specs.Hook.{TableOfIs, HookTickIs, HookTickForIs, HookReleaseIs, StoredIs};

use numbers::{Picked, RefusalNumbers};
use rules::{Part, Refusal, Table};
use runs::step;
use scheduler::State;

// The table as the core has it: how many records there are, and the first sixteen.
pub fn nandoquip_table_of(parts: &[Part]) -> Table
    ensures { TableOfIs parts.now result }
{
    let mut t = Table {
        count: parts.len(),
        period: [0; 16],
        budget: [0; 16],
        phase: [0; 16],
    };
    for (i, part) in parts.iter().take(16).enumerate() {
        t.period[i] = part.period;
        t.budget[i] = part.budget;
        t.phase[i] = part.phase;
    }
    t
}

// One decision by the word, and its tick, on the state where it stands.
pub fn nandoquip_tick(state: &mut State, parts: &[Part], word: u32) -> Picked
    ensures { HookTickIs parts.now state.old word result state.new }
{
    // Not `turn`, which hands a state back on a refusal too: storing that took a tick up to 11% longer.
    match step(*state, nandoquip_table_of(parts), word) {
        Ok(after) => {
            *state = after.state;
            Picked::from(Ok(after.pick))
        }
        Err(why) => Picked::from(Err(why)),
    }
}

// Stores the state that a call made. A call that was refused made none, and nothing is stored.
#[tactic(auto, unfolding(verdicts::specs::Verdicts::verdict_as))]
fn stored(state: &mut State, changed: Result<State, Refusal>) -> RefusalNumbers
    ensures { StoredIs state.old changed result state.new }
{
    match changed {
        Ok(after) => {
            *state = after;
            RefusalNumbers::from(Ok(()))
        }
        Err(why) => RefusalNumbers::from(why),
    }
}

// The tick for a given pick, on the state where it stands.
pub fn nandoquip_tick_for(state: &mut State, parts: &[Part], pick: usize) -> RefusalNumbers
    ensures { HookTickForIs parts.now state.old pick result state.new }
{
    let ticked = state.tick(nandoquip_table_of(parts), pick);
    stored(state, ticked)
}

// A release, on the state where it stands.
pub fn nandoquip_release(state: &mut State, parts: &[Part], index: usize) -> RefusalNumbers
    ensures { HookReleaseIs parts.now state.old index result state.new }
{
    let released = state.release(nandoquip_table_of(parts), index);
    stored(state, released)
}

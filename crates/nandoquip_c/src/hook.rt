// What an operating system's partition hook calls, exported: the state is lent, and the partition table is a run of records in kernel memory.
ghost use Rattle.nandoquip.specs.Hook.{TableOfIs, HookTickIs, HookTickForIs, HookReleaseIs};

use numbers::{Picked, RefusalNumbers};
use rules::{Part, Table};
use scheduler::State;

// The table as the core has it: how many records there are, and the first sixteen.
#[unsafe(no_mangle)]
pub extern "C" fn nandoquip_table_of(parts: &[Part]) -> Table
    ensures { TableOfIs parts.now result }
{
    nandoquip::nandoquip_table_of(parts)
}

// One decision by the word, and its tick, on the state where it stands.
#[unsafe(no_mangle)]
pub extern "C" fn nandoquip_tick(state: &mut State, parts: &[Part], word: u32) -> Picked
    ensures { HookTickIs parts.now state.old word result state.new }
{
    nandoquip::nandoquip_tick(state, parts, word)
}

// The tick for a given pick, on the state where it stands.
#[unsafe(no_mangle)]
pub extern "C" fn nandoquip_tick_for(
    state: &mut State,
    parts: &[Part],
    pick: usize,
) -> RefusalNumbers
    ensures { HookTickForIs parts.now state.old pick result state.new }
{
    nandoquip::nandoquip_tick_for(state, parts, pick)
}

// A release, on the state where it stands.
#[unsafe(no_mangle)]
pub extern "C" fn nandoquip_release(
    state: &mut State,
    parts: &[Part],
    index: usize,
) -> RefusalNumbers
    ensures { HookReleaseIs parts.now state.old index result state.new }
{
    nandoquip::nandoquip_release(state, parts, index)
}

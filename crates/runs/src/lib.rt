// A step by a word, and a run over words: decisions and their ticks.
#![tactic(auto)]

ghost use Rattle.std.specs.Prelude.{◌≤◌};
ghost use Rattle.std.proofs.Math.ListN as Seq;
ghost use Rattle.runs.specs.Promises.{DrawnIs, StepIs, RunIs, Filled};

use draw::choose;
use pairs::judge;
use rules::{Pairs, Refusal, Table};
use scheduler::State;
use ticks::pass_tick;

// The state after a step, and its pick.
#[derive(Clone, Copy)]
pub struct Stepped {
    pub state: State,
    pub pick: u8,
}

// One decision by the word and its tick, on lent pairs.
fn drawn(t: &Table, p: &mut Pairs, word: u32) -> u8
    ensures { DrawnIs t.now p.old word result p.new }
{
    let pick = choose(t, p, word);
    pass_tick(t, p, usize::from(pick));
    pick
}

// One decision and its tick, from a word, in one search. Refusals 1 and 3.
#[tactic(auto, using(crate::proofs::Calls::step_calls))]
pub fn step(mut state: State, t: Table, word: u32) -> Result<Stepped, Refusal>
    ensures { StepIs t state word result }
{
    judge(&t, &state.pairs)?;
    let pick = drawn(&t, &mut state.pairs, word);
    Ok(Stepped { state, pick })
}

// A decision and a tick for each word, and the picks into the buffer. The count's bound is a clause, as in `busy`: the table has been judged.
#[tactic(auto, using(crate::proofs::Looped::run_begins, crate::proofs::Looped::run_goes_on, crate::proofs::Looped::run_ends))]
fn ran(mut state: State, t: &Table, words: &[u32], picks: &mut [u8]) -> State
    requires { (t.now.count ≤ 16) × (Seq.length words.now ≤ Seq.length picks.old) }
    ensures { Filled t.now state words.now picks.old result picks.new }
{
    // Not `picks.iter_mut().zip(words)`: of what is written through an adapter nothing is known after it.
    for (i, word) in words.iter().enumerate() {
        picks[i] = drawn(t, &mut state.pairs, *word);
    }
    state
}

// A run over lent words into a lent buffer, a byte for each pick. Refusals 1, 3 and 7.
#[tactic(auto, using(crate::proofs::Calls::run_calls))]
pub fn run(state: State, t: Table, words: &[u32], picks: &mut [u8]) -> Result<State, Refusal>
    ensures { RunIs t state words.now picks.old result picks.new }
{
    state.judged(t)?;
    if picks.len() < words.len() {
        return Err(Refusal::ShortBuffer(words.len()));
    }
    Ok(ran(state, &t, words, picks))
}

// The scheduler's state, and what changes it: fresh start, tick and release.
#![tactic(auto)]

ghost use Rattle.std.specs.Prelude.{◌≡◌, ◌≤◌};
ghost use Rattle.rules.specs.FreshStart.{fresh_start};
ghost use Rattle.scheduler.specs.Promises.{FreshIs, JudgedIs, TickIs, ReleaseIs};

use candidates::member;
use pairs::judge;
use rules::{Pairs, Refusal, Table};
use standing::admission;
use ticks::pass_tick;

// The state: the sixteen pairs. A call that is refused leaves its caller the state that was given.
#[repr(C)]
#[derive(Clone, Copy)]
pub struct State {
    pub pairs: Pairs,
}

// Nothing left and nothing due: for a fresh start, which takes any old state.
pub const EMPTY: State = State {
    pairs: Pairs {
        b: [0; 16],
        o: [0; 16],
    },
};

// The fresh start of a table: b = B and o = T where the phase is 0, else b = 0 and o = phase. Pairs beyond it are 0, 0.
// The count's bound is a clause, as in `busy`: admission has judged the table.
#[tactic(auto, using(crate::proofs::Fresh::fresh_begins, crate::proofs::Fresh::fresh_whole, crate::proofs::Fresh::fresh_waits))]
fn fresh_start(t: &Table) -> Pairs
    requires { t.now.count ≤ 16 }
    ensures { result ≡ fresh_start t.now.count t.now.period t.now.budget t.now.phase }
{
    let mut p = Pairs {
        b: [0; 16],
        o: [0; 16],
    };
    // By index: a `zip` of the five arrays is no plainer.
    for i in 0..t.count {
        if t.phase[i] == 0 {
            p.b[i] = t.budget[i];
            p.o[i] = t.period[i];
        } else {
            p.o[i] = t.phase[i];
        }
    }
    p
}

impl State {
    // A fresh start, whatever the old state was. Refusals 1 and 2.
    #[tactic(auto, using(crate::proofs::Calls::fresh_calls))]
    pub fn fresh(self, t: Table) -> Result<State, Refusal>
        ensures { FreshIs t self result }
    {
        if let Some(h) = admission(t)? {
            return Err(Refusal::NotAdmitted(h));
        }
        let pairs = fresh_start(&t);
        Ok(State { pairs })
    }

    // Why the state is refused over the table, if it is. Refusals 1 and 3.
    pub fn judged(self, t: Table) -> Result<(), Refusal>
        ensures { JudgedIs t self result }
    {
        judge(&t, &self.pairs)
    }

    // A tick for a given pick. Refusals 1, 3 and 5.
    #[tactic(auto, using(crate::proofs::Calls::tick_calls))]
    pub fn tick(mut self, t: Table, pick: usize) -> Result<State, Refusal>
        ensures { TickIs t self pick result }
    {
        self.judged(t)?;
        if !member(&t, &self.pairs, pick) {
            return Err(Refusal::NotListed(pick));
        }
        pass_tick(&t, &mut self.pairs, pick);
        Ok(self)
    }

    // A release gives up what is left of one budget: the whole state comes back with one number changed. Refusals 1, 3 and 6.
    #[tactic(auto, using(crate::proofs::Calls::release_calls))]
    pub fn release(mut self, t: Table, index: usize) -> Result<State, Refusal>
        ensures { ReleaseIs t self index result }
    {
        self.judged(t)?;
        if index >= t.count || self.pairs.b[index] == 0 {
            return Err(Refusal::NotActive(index));
        }
        self.pairs.b[index] = 0;
        Ok(self)
    }
}

// A tick over lent pairs: the pick loses one, and time passes.
#![tactic(auto)]

ghost use Rattle.std.specs.Prelude.{◌≡◌, ◌≤◌};
ghost use Rattle.rules.specs.Tick.{spend};
ghost use Rattle.ticks.specs.Promises.{PassTimeIs, PassTickIs};

use pairs::paired;
use rules::{Pairs, Table};

// A picked partition loses one of b. Idle stands beyond the sixteen.
#[tactic(auto, unfolding(rules::specs::Tick::spend))]
fn spend_one(b: &mut [u16; 16], pick: usize)
    ensures { b.new ≡ spend b.old pick }
{
    if pick < 16 {
        b[pick] = b[pick].saturating_sub(1);
    }
}

// Time passes for each of `n` partitions: o falls by 1, and where it reaches 0, b becomes B and o becomes T. `n` is what `paired` gives: its bound is a clause, as in `pairs`.
#[tactic(auto, using(crate::proofs::Passing::pass_later, crate::proofs::Passing::pass_renews), unfolding(rules::specs::Tick::pass_time, basis::specs::Words::filled))]
fn pass_time(n: usize, t: &Table, p: &mut Pairs)
    requires { n ≤ 16 }
    ensures { PassTimeIs n t.now p.old p.new }
{
    // By index: a `zip` of the four arrays is no plainer.
    for i in 0..n {
        if p.o[i] > 1 {
            p.o[i] -= 1;
        } else {
            p.b[i] = t.budget[i];
            p.o[i] = t.period[i];
        }
    }
}

// A tick over lent pairs: the pick loses one of b, then time passes for each partition of the table. There are sixteen pairs, whatever the count.
#[tactic(auto, using(pairs::proofs::Parts::paired_few, crate::proofs::Passing::tick_is))]
pub fn pass_tick(t: &Table, p: &mut Pairs, pick: usize)
    ensures { PassTickIs t.now p.old pick p.new }
{
    spend_one(&mut p.b, pick);
    pass_time(paired(t.count, &p.o), t, p);
}

// The pairs of a state, judged beside their table and refused by number.
#![tactic(auto)]

ghost use Rattle.std.specs.Prelude.{◌≡◌, true, ◌&&◌, ◌+◌, ◌≤◌, eqb};
ghost use Rattle.std.proofs.Math.Option.{none};
ghost use Rattle.basis.specs.Words.{within};
ghost use Rattle.basis.specs.Reckoned.{Reckoned};
ghost use Rattle.pairs.specs.Parts.{first_bad_inside, first_bad_beyond, PairsJudged};
ghost use Rattle.pairs.specs.Promises.{PairedIs, JudgeStateIs, JudgeIs};

use ranges::judge_table;
use rules::{Pairs, Refusal, Table};

// A pair inside the table is within its partition's numbers.
fn pair_in_range(period: u16, budget: u16, b: u16, o: u16) -> bool
    ensures { result ≡ (within 0 budget b && within 1 period o) }
{
    if b > budget {
        return false;
    }
    if o == 0 {
        return false;
    }
    o <= period
}

// A pair beyond the table is 0, 0.
fn pair_is_zero(b: u16, o: u16) -> bool
    ensures { result ≡ (eqb b 0 && eqb o 0) }
{
    if b > 0 {
        return false;
    }
    o == 0
}

// How many of `n` partitions have a pair among `o`.
#[tactic(auto, unfolding(crate::specs::Parts::paired))]
pub fn paired(n: usize, o: &[u16]) -> usize
    ensures { PairedIs n o.now result }
{
    n.min(o.len())
}

// Refusal 3, of the first `n` pairs, which are inside the table. The bound, here and in the next two, is what `paired` gives: a type for it would be opened at each index.
fn judge_inside(n: usize, t: &Table, p: &Pairs) -> Result<(), Refusal>
    requires { n ≤ 16 }
    ensures { PairsJudged (first_bad_inside n t.now.period t.now.budget p.now.b p.now.o) result }
{
    // A loop, as in `ranges::judge_table`: the hook judges these pairs at each tick.
    for i in 0..n {
        if !pair_in_range(t.period[i], t.budget[i], p.b[i], p.o[i]) {
            return Err(Refusal::BadPair(i));
        }
    }
    Ok(())
}

// A pair as one number, which is 0 where both are.
fn both(b: u16, o: u16) -> u32
    ensures { Reckoned 131072 (b + o) result }
{
    u32::from(b) + u32::from(o)
}

// None of the pairs from `n` on has anything. Nothing stops this sum halfway, so that several pairs are added at once; by index, since b and o stand apart, as C reads them.
fn nothing_beyond(n: usize, p: &Pairs) -> bool
    requires { n ≤ 16 }
    ensures { result ≡ true → first_bad_beyond n p.now.b p.now.o ≡ none }
{
    let mut sum = 0;
    for j in n..16 {
        sum += both(p.b[j], p.o[j]);
    }
    sum == 0
}

// Refusal 3, of the pairs from `n` on, which are beyond the table.
fn judge_beyond(n: usize, p: &Pairs) -> Result<(), Refusal>
    requires { n ≤ 16 }
    ensures { PairsJudged (first_bad_beyond n p.now.b p.now.o) result }
{
    if nothing_beyond(n, p) {
        return Ok(());
    }
    let bad = (n..16).find(|&j| !pair_is_zero(p.b[j], p.o[j]));
    match bad {
        Some(j) => Err(Refusal::BadPair(j)),
        None => Ok(()),
    }
}

// Refusal 3, of all 16 pairs.
pub fn judge_state(t: &Table, p: &Pairs) -> Result<(), Refusal>
    ensures { JudgeStateIs t.now p.now result }
{
    let inside = paired(t.count, &p.o);
    judge_inside(inside, t, p)?;
    judge_beyond(inside, p)
}

// Refusals 1 and 3, in this order.
pub fn judge(t: &Table, p: &Pairs) -> Result<(), Refusal>
    ensures { JudgeIs t.now p.now result }
{
    judge_table(t)?;
    judge_state(t, p)
}

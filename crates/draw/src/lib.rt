// The draw: the weights of the candidates, and the pick that a word makes among them.
#![tactic(auto)]

ghost use Rattle.std.specs.Prelude.{◌≡◌, ◌⊎◌, ◌*◌, ◌/◌, ◌<◌, ◌≤◌, length};
ghost use Rattle.rules.specs.Candidates.{idle};
ghost use Rattle.rules.specs.Weights.{idle_weight};
ghost use Rattle.rules.specs.Pick.{position, first_exceeding};
ghost use Rattle.draw.specs.Inner.{weight_of, Usable, ScalesAre};
ghost use Rattle.draw.specs.Promises.{ChooseIs, WeightsAre, DecideIs};

use busy::search::search;
use pairs::judge;
use rules::{Pairs, Refusal, Table};

// The weights beside the list, as an answer. The places from `length` on are 0. Arrays and a length, as in `candidates`; flat, as C's struct has it.
#[derive(Clone, Copy)]
pub struct Weighed {
    pub list: [u8; 17],
    pub weights: [u32; 17],
    pub length: usize,
}

// A partition weighs floor(65,536·b/o).
fn weight(b: u16, o: u16) -> u32
    ensures { result ≡ 65536 * b / o }
{
    if o == 0 {
        return 0;
    }
    65536 * u32::from(b) / u32::from(o)
}

// Idle weighs 65,536 minus the others' sum, or 0 where that would be negative. `as`, since the rest becomes narrower.
#[tactic(auto, unfolding(rules::specs::Weights::idle_weight))]
fn idle_weight(sum: u64) -> u32
    ensures { result ≡ idle_weight sum }
{
    65536u64.saturating_sub(sum) as u32
}

// What the candidate `c` weighs, where those before it weigh `sum`. 255 is idle: 01 has the list as bytes, and C reads it so.
#[tactic(auto, unfolding(crate::specs::Inner::weight_of, rules::specs::Weights::weight))]
fn weight_of(p: &Pairs, sum: u64, c: u8) -> u32
    requires { (c < 16) ⊎ (c ≡ idle) }
    ensures { result ≡ weight_of p.now.b p.now.o sum c }
{
    if c == 255 {
        return idle_weight(sum);
    }
    let i = usize::from(c);
    weight(p.b[i], p.o[i])
}

// The weights of the listed into the first of the lent places, and their sum.
#[tactic(auto, unfolding(crate::specs::Inner::weighed, basis::specs::Words::total))]
fn weigh(p: &Pairs, list: &[u8], weights: &mut [u32; 17]) -> u64
    requires { Usable list.now }
    ensures { ScalesAre p.now.b p.now.o list.now weights.old (record { weights = weights.new; sum = result }) }
{
    let mut sum = 0;
    // By index: no invariant can name the weights while a `zip` lends them.
    for (i, &c) in list.iter().enumerate() {
        let x = weight_of(p, sum, c);
        weights[i] = x;
        sum += u64::from(x);
    }
    sum
}

// The first candidate whose running sum of weights exceeds `at`. 255 is idle, here and in `choose`.
fn pick_at(list: &[u8], weights: &[u32; 17], at: u64) -> u8
    requires { length list.now ≤ 17 }
    ensures { result ≡ first_exceeding at 0 list.now weights.now }
{
    let mut running = 0;
    for (&c, &x) in list.iter().zip(weights) {
        running += u64::from(x);
        if at < running {
            return c;
        }
    }
    255
}

// Where a word points: the remainder by the sum of the weights.
#[tactic(auto, unfolding(rules::specs::Pick::position))]
fn position(word: u32, sum: u64) -> u64
    requires { 0 < sum }
    ensures { result ≡ position word sum }
{
    u64::from(word) % sum
}

// One decision: the pick that the word makes. No table has more than 16 partitions, and for those it is idle.
pub fn choose(t: &Table, p: &Pairs, word: u32) -> u8
    ensures { ChooseIs t.now p.now word result }
{
    let mut list = [0u8; 17];
    let mut weights = [0u32; 17];
    let length = search(t, p, &mut list);
    let list = &list[..length];
    let sum = weigh(p, list, &mut weights);
    if sum == 0 {
        return 255;
    }
    let at = position(word, sum);
    pick_at(list, &weights, at)
}

// The weights beside the candidate list. Refusals 1 and 3.
pub fn weights(t: Table, p: &Pairs) -> Result<Weighed, Refusal>
    ensures { WeightsAre t p.now result }
{
    judge(&t, p)?;
    let mut list = [0u8; 17];
    let mut weights = [0u32; 17];
    let length = search(&t, p, &mut list);
    weigh(p, &list[..length], &mut weights);
    Ok(Weighed {
        list,
        weights,
        length,
    })
}

// One decision over lent words: it uses the first. Refusals 1, 3 and 4.
pub fn decide(t: Table, p: &Pairs, words: &[u32]) -> Result<u8, Refusal>
    ensures { DecideIs t p.now words.now result }
{
    judge(&t, p)?;
    let word = words.first().ok_or(Refusal::NoWord)?;
    Ok(choose(&t, p, *word))
}

// The busy engine: how long a partition's work and all above it take, and whether that is within its deadline.
#![tactic(auto)]

ghost use Rattle.std.specs.Prelude.{◌≡◌, cond, suc, ◌+◌, ◌*◌, ◌<◌, ◌≤◌, ltb};
ghost use Rattle.basis.specs.Words.{◌!◌, sum_below, settle};
ghost use Rattle.basis.specs.Reckoned.{Reckoned};
ghost use Rattle.rules.specs.BusyLength.{arrivals, refill, busy_length};
ghost use Rattle.busy.specs.Promises.{BusyLengthIs, PassesIs};
ghost use Rattle.busy.specs.Inner.{filling, Going};
ghost use Rattle.busy.specs.Spans.{span_as};

use rules::{Pairs, Table};

pub mod search;

// What the replenishments before `w` add, of one partition: max(0, ceil((w − o)/T))·B. No division where a comparison decides.
#[tactic(auto, using(crate::proofs::Refill::refilled))]
fn refill_of(period: u16, budget: u16, next: u16, w: u64) -> u64
    requires { w < 131072 }
    ensures { Reckoned 8589934592 (arrivals next period w * budget) result }
{
    let o = u64::from(next);
    if w <= o {
        return 0;
    }
    let late = w - o;
    let t = u64::from(period);
    if late <= t {
        return u64::from(budget);
    }
    if t == 0 {
        return 0;
    }
    late.div_ceil(t) * u64::from(budget)
}

// What the replenishments before `w` add, of all partitions above `top`. Places are counted, since the table has an array for each field, as C reads it.
// Here and below the clauses ask that a place is one of the 16: a type with that as its invariant would be opened at each index.
fn refills(t: &Table, p: &Pairs, top: usize, w: u64) -> u64
    requires { (top ≤ 16) × (w < 131072) }
    ensures { Reckoned 137438953473 (sum_below top (λ j. refill t.now.period t.now.budget p.now.o j w)) result }
{
    (0..top)
        .map(|j| refill_of(t.period[j], t.budget[j], p.o[j], w))
        .sum()
}

// What is left of the budgets of all partitions above `h`.
fn waiting(p: &Pairs, h: usize) -> u64
    requires { h ≤ 16 }
    ensures { Reckoned 1048577 (sum_below h (λ j. p.now.b ! j)) result }
{
    p.b[..h].iter().map(|x| u64::from(*x)).sum()
}

// The deadline from now, of a partition that has `b` left and is replenished in `o` ticks.
fn due(period: u16, b: u16, o: u16) -> u32
    ensures { Reckoned 131072 (cond (ltb 0 b) o (o + period)) result }
{
    if b > 0 {
        u32::from(o)
    } else {
        u32::from(o) + u32::from(period)
    }
}

// How many partitions' refills count for `h`: all above it, and its own where it has nothing left.
fn counted(b: u16, h: usize) -> usize
    requires { h < 16 }
    ensures { result ≡ cond (ltb 0 b) h (h + 1) }
{
    if b > 0 { h } else { h + 1 }
}

// From `start`, with the refills of `top` partitions added to it, and having come to `from`: repeats until it stands still, or is past the deadline.
// That a start is below 2^21, here and in the search, is a clause: a number of its own type would be taken out of it for each sum.
fn settled(t: &Table, p: &Pairs, top: usize, start: u64, from: u64, deadline: u64) -> Option<u64>
    requires { (top ≤ 16) × (start < 2097152) × (deadline < 131072) × Going t.now.period t.now.budget p.now.o top start deadline from }
    ensures { span_as result ≡ settle (suc deadline) (filling t.now.period t.now.budget p.now.o top start) (ltb deadline) start }
{
    let mut length = from;
    while length <= deadline {
        let sum = start + refills(t, p, top, length);
        if sum == length {
            return Some(length);
        }
        length = sum;
    }
    None
}

// The busy length of `h` with inversion `w`, if it is at most the deadline.
#[tactic(auto, using(crate::proofs::Repetition::whole_test))]
fn busy(t: &Table, p: &Pairs, h: usize, w: u64) -> Option<u64>
    requires { h < 16 }
    ensures { span_as result ≡ busy_length t.now.period t.now.budget p.now.b p.now.o h w }
{
    let deadline = u64::from(due(t.period[h], p.b[h], p.o[h]));
    if w > deadline {
        return None;
    }
    let start = w + u64::from(p.b[h]) + waiting(p, h);
    settled(t, p, counted(p.b[h], h), start, start, deadline)
}

// The same for any `h`: there are 16 places, and an index beyond them has no busy length.
pub fn busy_length(t: &Table, p: &Pairs, h: usize, w: u64) -> Option<u64>
    ensures { BusyLengthIs t.now p.now h w result }
{
    if h >= 16 {
        return None;
    }
    busy(t, p, h, w)
}

// `h` passes with inversion `w`.
pub fn passes(t: &Table, p: &Pairs, h: usize, w: u64) -> bool
    ensures { PassesIs t.now p.now h w result }
{
    busy_length(t, p, h, w).is_some()
}

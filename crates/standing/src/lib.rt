// Does it stand: the standing test, admission, one partition's R, and the busy test as calls.
#![tactic(auto)]

ghost use Rattle.std.specs.Prelude.{◌≡◌, ◌≤◌};
ghost use Rattle.basis.specs.Options.{option_as};
ghost use Rattle.rules.specs.StandingTest.{first_failing};
ghost use Rattle.standing.specs.Promises.{AdmissionIs, ResponseIs, BusyTestIs, StandingIs};

use busy::{busy_length, passes};
use pairs::{judge, judge_state};
use ranges::{judge_index, judge_table};
use rules::{Pairs, Refusal, Table};

// The first partition that fails with w = 0. The callers have judged the table: of a place beyond the 16 `passes` says nothing.
fn first_failing(t: &Table, p: &Pairs) -> Option<usize>
    requires { t.now.count ≤ 16 }
    ensures { option_as result ≡ first_failing t.now.count t.now.period t.now.budget p.now.b p.now.o }
{
    (0..t.count).find(|&h| !passes(t, p, h, 0))
}

// The standing test: every partition passes with w = 0, or which is the first that fails. Refusals 1 and 3.
#[tactic(auto, using(crate::proofs::Tests::standing))]
pub fn standing(t: Table, p: &Pairs) -> Result<Option<usize>, Refusal>
    ensures { StandingIs t p.now result }
{
    judge(&t, p)?;
    Ok(first_failing(&t, p))
}

// Full budgets, each replenished in a whole period.
fn full(t: &Table) -> Pairs
    ensures { result ≡ record { b = t.now.budget; o = t.now.period } }
{
    Pairs {
        b: t.budget,
        o: t.period,
    }
}

// Admission: it is the standing test of full budgets. Refusal 1.
#[tactic(auto, using(crate::proofs::Tests::admission))]
pub fn admission(t: Table) -> Result<Option<usize>, Refusal>
    ensures { AdmissionIs t result }
{
    judge_table(&t)?;
    Ok(first_failing(&t, &full(&t)))
}

// R of partition `h`, where R is at most its period. Refusal 1.
#[tactic(auto, using(crate::proofs::Tests::response))]
pub fn response(t: Table, h: usize) -> Result<Option<u64>, Refusal>
    ensures { ResponseIs t h result }
{
    judge_index(&t, h)?; // who isn't there has no R
    Ok(busy_length(&t, &full(&t), h, 0))
}

// The busy test of partition `h` with inversion `w`: its length, or that it fails. Refusals 1 and 3.
pub fn busy_test(t: Table, p: &Pairs, h: usize, w: u32) -> Result<Option<u64>, Refusal>
    ensures { BusyTestIs t p.now h w result }
{
    judge_index(&t, h)?;
    judge_state(&t, p)?;
    Ok(busy_length(&t, p, h, u64::from(w)))
}

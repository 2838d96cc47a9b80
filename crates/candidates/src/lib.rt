// Who may run now: the candidate list, and its members, as calls.
#![tactic(auto)]

ghost use Rattle.std.specs.Prelude.{◌≡◌};
ghost use Rattle.basis.specs.Words.{has};
ghost use Rattle.candidates.specs.Promises.{MemberIs, CandidatesIs};

use busy::search::search;
use pairs::judge;
use rules::{Pairs, Refusal, Table};

// The candidate list as an answer. The places from `length` on are 0. An array and a length, since nothing here has a heap, and C reads them so.
#[derive(Clone, Copy)]
pub struct Listed {
    pub list: [u8; 17],
    pub length: usize,
}

// The pick is among the listed. A loop: with `any` a call took up to 15% longer.
#[tactic(auto, unfolding(basis::specs::Words::has))]
fn holds(list: &[u8], pick: usize) -> bool
    ensures { result ≡ has list.now pick }
{
    for &x in list {
        if usize::from(x) == pick {
            return true;
        }
    }
    false
}

// The pick is a member of the list: a tick for it is allowed.
pub fn member(t: &Table, p: &Pairs, pick: usize) -> bool
    ensures { MemberIs t.now p.now pick result }
{
    let mut list = [0u8; 17];
    let length = search(t, p, &mut list);
    holds(&list[..length], pick)
}

// The candidate list. Refusals 1 and 3.
pub fn candidates(t: Table, p: &Pairs) -> Result<Listed, Refusal>
    ensures { CandidatesIs t p.now result }
{
    judge(&t, p)?;
    let mut list = [0u8; 17];
    let length = search(&t, p, &mut list);
    Ok(Listed { list, length })
}

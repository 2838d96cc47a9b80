// The answers of the calls as plain numbers, for C. Each begins with a refusal's two numbers. Where a call is refused, every value after them is 0, and a state is the one that was given.
#![tactic(auto)]

ghost use Rattle.numbers.specs.Promises.{RefusalNumbersAre, VerdictNumbersAre, TestNumbersAre, LengthNumbersAre, ResponseNumbersAre, PickNumbersAre, ChangeNumbersAre, ListNumbersAre, WeightNumbersAre, ListBesideIs, WeightsBesideAre, TurnIs, TurnForIs, ReleasedIs};

use candidates::Listed;
use draw::Weighed;
use rules::{Refusal, Table};
use runs::step;
use scheduler::State;
use verdicts::Numbered;

// The structs below are the C interface, which has neither Option nor Result: their fields and layout may not change.
// A refusal's number and its second number; 0, 0 where the call was not refused.
#[repr(C)]
#[derive(Clone, Copy)]
pub struct RefusalNumbers {
    pub number: u32,
    pub second: usize,
}

// The pick, 255 for idle.
#[repr(C)]
#[derive(Clone, Copy)]
pub struct Picked {
    pub refusal: RefusalNumbers,
    pub pick: u32,
}

// 1 and 0 where all partitions pass; else 0 and the first that fails.
#[repr(C)]
#[derive(Clone, Copy)]
pub struct Tested {
    pub refusal: RefusalNumbers,
    pub passes: u32,
    pub failing: usize,
}

// 1 and the ticks where they are within the deadline; else 0 and 0.
#[repr(C)]
#[derive(Clone, Copy)]
pub struct Lasting {
    pub refusal: RefusalNumbers,
    pub within: u32,
    pub ticks: u64,
}

// The ticks, 0 for late.
#[repr(C)]
#[derive(Clone, Copy)]
pub struct Responded {
    pub refusal: RefusalNumbers,
    pub ticks: u64,
}

// The state after a call. On a refusal it is the state that was given.
#[repr(C)]
#[derive(Clone, Copy)]
pub struct After {
    pub refusal: RefusalNumbers,
    pub state: State,
}

// The candidate list and its length.
#[repr(C)]
#[derive(Clone, Copy)]
pub struct ListNumbers {
    pub refusal: RefusalNumbers,
    pub length: usize,
    pub list: [u8; 17],
}

// The candidate list, its length, and the weights beside it.
#[repr(C)]
#[derive(Clone, Copy)]
pub struct WeightNumbers {
    pub refusal: RefusalNumbers,
    pub length: usize,
    pub list: [u8; 17],
    pub weights: [u32; 17],
}

// A pick, and the state after its tick.
#[derive(Clone, Copy)]
pub struct Turned {
    pub picked: Picked,
    pub state: State,
}

// Not refused.
const UNREFUSED: RefusalNumbers = RefusalNumbers {
    number: 0,
    second: 0,
};

// A refusal in numbers.
impl From<Refusal> for RefusalNumbers {
    ghost from_gives = { RefusalNumbersAre };

    fn from(why: Refusal) -> RefusalNumbers {
        let Numbered { number, second } = Numbered::from(why);
        RefusalNumbers { number, second }
    }
}

// A verdict in numbers: the refusal's, if it is one.
impl From<Result<(), Refusal>> for RefusalNumbers {
    ghost from_gives = { VerdictNumbersAre };

    #[tactic(auto, unfolding(verdicts::specs::Verdicts::verdict_as))]
    fn from(verdict: Result<(), Refusal>) -> RefusalNumbers {
        match verdict {
            Ok(()) => UNREFUSED,
            Err(why) => RefusalNumbers::from(why),
        }
    }
}

// A test of all partitions in numbers: the first that fails, if one does.
impl From<Result<Option<usize>, Refusal>> for Tested {
    ghost from_gives = { TestNumbersAre };

    fn from(test: Result<Option<usize>, Refusal>) -> Tested {
        match test {
            Ok(None) => Tested {
                refusal: UNREFUSED,
                passes: 1,
                failing: 0,
            },
            Ok(Some(h)) => Tested {
                refusal: UNREFUSED,
                passes: 0,
                failing: h,
            },
            Err(why) => Tested {
                refusal: RefusalNumbers::from(why),
                passes: 0,
                failing: 0,
            },
        }
    }
}

// A length in numbers: its ticks, where they are within the deadline.
impl From<Result<Option<u64>, Refusal>> for Lasting {
    ghost from_gives = { LengthNumbersAre };

    fn from(length: Result<Option<u64>, Refusal>) -> Lasting {
        match length {
            Ok(Some(ticks)) => Lasting {
                refusal: UNREFUSED,
                within: 1,
                ticks,
            },
            Ok(None) => Lasting {
                refusal: UNREFUSED,
                within: 0,
                ticks: 0,
            },
            Err(why) => Lasting {
                refusal: RefusalNumbers::from(why),
                within: 0,
                ticks: 0,
            },
        }
    }
}

// A response in numbers.
impl From<Result<u64, Refusal>> for Responded {
    ghost from_gives = { ResponseNumbersAre };

    fn from(response: Result<u64, Refusal>) -> Responded {
        match response {
            Ok(longest) => Responded {
                refusal: UNREFUSED,
                ticks: longest,
            },
            Err(why) => Responded {
                refusal: RefusalNumbers::from(why),
                ticks: 0,
            },
        }
    }
}

// A pick in numbers.
impl From<Result<u8, Refusal>> for Picked {
    ghost from_gives = { PickNumbersAre };

    fn from(decision: Result<u8, Refusal>) -> Picked {
        match decision {
            Ok(pick) => Picked {
                refusal: UNREFUSED,
                pick: u32::from(pick),
            },
            Err(why) => Picked {
                refusal: RefusalNumbers::from(why),
                pick: 0,
            },
        }
    }
}

// A candidate list in numbers.
impl From<Result<Listed, Refusal>> for ListNumbers {
    ghost from_gives = { ListNumbersAre };

    #[tactic(auto, unfolding(basis::specs::Words::padded))]
    fn from(listed: Result<Listed, Refusal>) -> ListNumbers {
        match listed {
            Ok(listed) => {
                let list = listed.list;
                ListNumbers {
                    refusal: UNREFUSED,
                    length: listed.length,
                    list,
                }
            }
            Err(why) => ListNumbers {
                refusal: RefusalNumbers::from(why),
                length: 0,
                list: [0u8; 17],
            },
        }
    }
}

// A list and its weights in numbers.
impl From<Result<Weighed, Refusal>> for WeightNumbers {
    ghost from_gives = { WeightNumbersAre };

    #[tactic(auto, unfolding(basis::specs::Words::padded))]
    fn from(weighed: Result<Weighed, Refusal>) -> WeightNumbers {
        match weighed {
            Ok(weighed) => {
                let list = weighed.list;
                let weights = weighed.weights;
                WeightNumbers {
                    refusal: UNREFUSED,
                    length: weighed.length,
                    list,
                    weights,
                }
            }
            Err(why) => WeightNumbers {
                refusal: RefusalNumbers::from(why),
                length: 0,
                list: [0; 17],
                weights: [0; 17],
            },
        }
    }
}

// A list beside a verdict, in numbers: the list is told as it is, also where the verdict is a refusal.
pub fn list_numbers(listed: Listed, verdict: Result<(), Refusal>) -> ListNumbers
    ensures { ListBesideIs listed verdict result }
{
    let Listed { list, length } = listed;
    let refusal = RefusalNumbers::from(verdict);
    ListNumbers {
        refusal,
        length,
        list,
    }
}

// A list and its weights beside a verdict, likewise.
pub fn weight_numbers(weighed: Weighed, verdict: Result<(), Refusal>) -> WeightNumbers
    ensures { WeightsBesideAre weighed verdict result }
{
    let Weighed {
        list,
        weights,
        length,
    } = weighed;
    let refused = RefusalNumbers::from(verdict);
    WeightNumbers {
        refusal: refused,
        length,
        list,
        weights,
    }
}

// A state after a call in numbers: the one that was made of it or, where the call was refused, the one that was given.
#[tactic(auto, unfolding(verdicts::specs::Verdicts::verdict_as))]
pub fn change_numbers(given: State, changed: Result<State, Refusal>) -> After
    ensures { ChangeNumbersAre given changed result }
{
    After {
        refusal: RefusalNumbers::from(changed.map(|_| ())),
        state: changed.unwrap_or(given),
    }
}

// One decision and its tick, from a word, with the state by value. Refusals 1 and 3.
pub fn turn(state: State, t: Table, word: u32) -> Turned
    ensures { TurnIs t state word result }
{
    // Not `map` and `map_or`, which copy the state once more.
    match step(state, t, word) {
        Ok(stepped) => Turned {
            picked: Picked::from(Ok(stepped.pick)),
            state: stepped.state,
        },
        Err(why) => Turned {
            picked: Picked::from(Err(why)),
            state,
        },
    }
}

// A tick for a given pick. Refusals 1, 3 and 5.
pub fn turn_for(state: State, t: Table, pick: usize) -> After
    ensures { TurnForIs t state pick result }
{
    change_numbers(state, state.tick(t, pick))
}

// A release. Refusals 1, 3 and 6.
pub fn released(state: State, t: Table, index: usize) -> After
    ensures { ReleasedIs t state index result }
{
    change_numbers(state, state.release(t, index))
}

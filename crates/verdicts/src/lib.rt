// A refusal by its numbers.
#![tactic(auto)]

ghost use Rattle.verdicts.specs.Promises.{NumbersAre};

use rules::Refusal;

// A refusal's number and its second number. C has a struct of its own, in `numbers`.
#[derive(Clone, Copy)]
pub struct Numbered {
    pub number: u32,
    pub second: usize,
}

// A refusal by its numbers.
impl From<Refusal> for Numbered {
    ghost from_gives = { NumbersAre };

    fn from(why: Refusal) -> Numbered {
        match why {
            Refusal::BadPartition(second) => Numbered { number: 1, second },
            Refusal::NotAdmitted(second) => Numbered { number: 2, second },
            Refusal::BadPair(second) => Numbered { number: 3, second },
            Refusal::NoWord => Numbered {
                number: 4,
                second: 0,
            },
            Refusal::NotListed(second) => Numbered { number: 5, second },
            Refusal::NotActive(second) => Numbered { number: 6, second },
            Refusal::ShortBuffer(second) => Numbered { number: 7, second },
            Refusal::BadRecord(second) => Numbered { number: 8, second },
            Refusal::BadTask(second) => Numbered { number: 9, second },
        }
    }
}

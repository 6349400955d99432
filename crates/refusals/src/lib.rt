// Why a call is refused: the rows of the papers' tables, each with its number.
#![tactic(auto)]

ghost use Rattle.std.specs.Prelude.{◌≡◌};
ghost use Rattle.refusals.specs.Numbers.{number_of, answer_of};

use meaning::Answer;

// A row of the tables, in their order.
#[derive(Clone, Copy, Debug, PartialEq, Eq)]
pub enum Refusal {
    LongFile,
    BadLine,
    BadName,
    KnownName,
    TooMany,
    Misplaced,
    BadWord,
    BadTarget,
    NoElement,
    BadRequest,
    ShortBuffer,
    ShortList,
    NoSuchAttribute,
    NoObligation,
    NoSuchRule,
    OtherLine,
    OtherOutcome,
    NeedlessRule,
    OtherAttribute,
}

impl Refusal {
    // Its number, the first that an answer gives.
    pub fn number(self) -> u32
        ensures { result ≡ number_of self }
    {
        match self {
            Refusal::LongFile => 1,
            Refusal::BadLine => 2,
            Refusal::BadName => 3,
            Refusal::KnownName => 4,
            Refusal::TooMany => 5,
            Refusal::Misplaced => 6,
            Refusal::BadWord => 7,
            Refusal::BadTarget => 8,
            Refusal::NoElement => 9,
            Refusal::BadRequest => 10,
            Refusal::ShortBuffer => 11,
            Refusal::ShortList => 12,
            Refusal::NoSuchAttribute => 13,
            Refusal::NoObligation => 14,
            Refusal::NoSuchRule => 15,
            Refusal::OtherLine => 16,
            Refusal::OtherOutcome => 17,
            Refusal::NeedlessRule => 18,
            Refusal::OtherAttribute => 19,
        }
    }
}

// A refusal and its second number: a line, a place, a request, or what would be needed.
#[derive(Clone, Copy, Debug, PartialEq, Eq)]
pub struct Refused {
    pub why: Refusal,
    pub second: u32,
}

impl From<Refused> for Answer {
    ghost from_gives = { λ refused answer. answer ≡ answer_of refused };

    fn from(refused: Refused) -> Answer {
        Answer {
            number: refused.why.number(),
            second: refused.second,
        }
    }
}

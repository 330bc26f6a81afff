// What the public calls answer: what a call leaves, and the documents' number of each decline. What each call answers, and in
// what order it declines, is defined in specs/; crate `calls` has the calls themselves.
#![tactic(auto)]

ghost use Rattle.std.specs.Prelude.{◌≡◌, ◌≤◌};
ghost use Rattle.declines.specs.Answers.{decline_number, bytes_decline_number, fill_decline_number};
ghost use Rattle.declines.specs.Calls.{by_bytes_of};
ghost use Rattle.declines.specs.declared.BytesDecline.TheVariants as bytes_decline;
ghost use Rattle.declines.specs.declared.FillDecline.TheVariants as fill_decline;

use supervisor::Supervisor;

// Why a call is declined; specs/Answers.antt has document 01's number for each.
#[derive(Clone, Copy, Debug, PartialEq, Eq)]
pub enum Decline {
    Spoiled,
    Length,
    Place,
    Active,
    Value,
}

impl Decline {
    // [Declines.1a] document 01's number, under its name and not by From; the second clause is that it has one digit
    pub fn number(self) -> u8
        ensures value { result ≡ decline_number self }
        ensures upper_bound { result ≤ 9 }
    {
        match self {
            Decline::Spoiled => 1,
            Decline::Length => 2,
            Decline::Place => 3,
            Decline::Active => 4,
            Decline::Value => 5,
        }
    }
}

// Why a register call by a run of bytes is declined: as the plain call is, or the run is none of the ten.
#[derive(Clone, Copy, Debug, PartialEq, Eq)]
pub enum BytesDecline {
    Plain(Decline),
    BadRun,
}

impl BytesDecline {
    // [Bytes.11]
    pub const BAD_RUN: u8 = 7;

    // [Declines.1a] [Bytes.11] the documents' number
    pub fn number(self) -> u8
        ensures { result ≡ bytes_decline_number self }
    {
        match self {
            BytesDecline::Plain(why) => why.number(),
            BytesDecline::BadRun => BytesDecline::BAD_RUN,
        }
    }
}

impl From<Decline> for BytesDecline {
    ghost from_gives = { λ d e. e ≡ bytes_decline.Plain d };

    fn from(why: Decline) -> BytesDecline {
        BytesDecline::Plain(why)
    }
}

// An enum for each call, and not one for both: no other call can give 7 or 8 (document 02).

// Why a fill of the memory is declined: as a memory write is, or one of the words is not taken.
#[derive(Clone, Copy, Debug, PartialEq, Eq)]
pub enum FillDecline {
    Plain(Decline),
    BadWord,
}

impl FillDecline {
    // [Table.8b]
    pub const BAD_WORD: u8 = 8;

    // [Declines.1a] [Table.8b] the documents' number
    pub fn number(self) -> u8
        ensures { result ≡ fill_decline_number self }
    {
        match self {
            FillDecline::Plain(why) => why.number(),
            FillDecline::BadWord => FillDecline::BAD_WORD,
        }
    }
}

impl From<Decline> for FillDecline {
    ghost from_gives = { λ d e. e ≡ fill_decline.Plain d };

    fn from(why: Decline) -> FillDecline {
        FillDecline::Plain(why)
    }
}

// What a call leaves: the next record, and its answer.
#[derive(Clone, Copy)]
pub struct Done<A> {
    pub next: Supervisor,
    pub answer: A,
}

impl<A> Done<Result<A, Decline>> {
    // a plain call's end, as that of a call by a run of bytes
    pub fn by_bytes(self) -> Done<Result<A, BytesDecline>>
        ensures { result ≡ by_bytes_of self }
    {
        Done {
            next: self.next,
            answer: self.answer.map_err(BytesDecline::from),
        }
    }
}

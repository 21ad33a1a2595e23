// SPDX-License-Identifier: Apache-2.0 AND BSD-3-Clause
// The calls of a device as data, and one function that makes the call it is given: its answer, queue and memory are one step of the world that the
// theorems of specs/ speak of.
#![tactic(auto)]

ghost use Rattle.std.specs.Prelude.{◌≡◌};
ghost use Rattle.ledger.specs.World.{yes_no};

use queue::{AvailIter, Error, Queue};

pub mod make; // make.rt: makes a call
pub mod number; // number.rt: a call chosen by a number

// What the driver sets through the transport.
#[derive(Clone, Copy)]
pub enum Setting {
    Size(u16),
    DescTable(Option<u32>, Option<u32>),
    AvailRing(Option<u32>, Option<u32>),
    UsedRing(Option<u32>, Option<u32>),
    Ready(bool),
    EventIdx(bool),
}

// A call on a queue, with its arguments.
#[derive(Clone, Copy)]
pub enum Call {
    Set(Setting),
    SetNextAvail(u16),
    SetNextUsed(u16),
    Reset,
    Valid,
    Begin,
    NextHead,
    Pop,
    GoBack,
    // head and length
    Put(u16, u32),
    Stop,
    Ask,
    Question,
}

// What a call answers. One enum, and no Option or Result in it: the books and theorems of specs/ go by these cases.
#[derive(Clone, Copy)]
pub enum Answer {
    Done,
    Took(u16),
    NoEntry,
    Yes,
    No,
    Refused(Error),
}

impl From<bool> for Answer {
    ghost from_gives = { λ yes a. a ≡ yes_no yes };

    fn from(yes: bool) -> Answer {
        if yes { Answer::Yes } else { Answer::No }
    }
}

// What a call answers, and what it leaves of the device's own: the queue, and the pass that goes on.
#[derive(Clone, Copy)]
pub struct Step {
    pub answer: Answer,
    pub queue: Queue,
    pub pass: AvailIter,
}

// The arguments of a call that is chosen by a number: a call takes those that it has a use for.
#[derive(Clone, Copy)]
pub struct Args {
    pub number: u16,
    pub length: u32,
    pub on: bool,
    pub low: Option<u32>,
    pub high: Option<u32>,
}

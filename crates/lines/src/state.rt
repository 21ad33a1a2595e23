// SPDX-License-Identifier: Apache-2.0 AND BSD-3-Clause
// What a replay knows between two lines, beside the image and the table of regions, and what a line answers.
ghost use Rattle.std.specs.Prelude.{◌≡◌};
ghost use Rattle.lines.specs.Answers.{yes_no};

use adding::AddError;
use chain::DescriptorChain;
use desc::Descriptor;
use queue::{AvailIter, Error, Queue};

#[derive(Clone, Copy)]
pub struct State {
    // The image's length: it is the first bytes of the space, which the program has once (no heap).
    pub size: usize,
    // The table holds only the region that `memory` made: the next `region` replaces it.
    pub plain: bool,
    pub queue: Option<Queue>,
    pub pass: Option<AvailIter>,
    pub chain: Option<DescriptorChain>,
}

// Why a line is an error, in the order of the tests.
#[derive(Clone, Copy, Debug, PartialEq, Eq)]
pub enum Fault {
    TooLong,
    UnknownCommand,
    WrongWords,
    NotNumber,
    NoQueue,
    NoPass,
    NoChain,
    OutsideImage,
}

// What a command answers: a case for each way in which it is printed.
#[derive(Clone, Copy)]
pub enum Answer {
    Fine,
    Yes,
    No,
    Nothing,
    Refused,
    RefusedFor(Error),
    // why a region was refused
    NotAdded(AddError),
    Number(u64),
    Sum(u32),
    // how many descriptors came, and the sum of their bytes
    Walked(u16, u32),
    Next(Descriptor),
    Fields(Queue),
    // the bytes of the image from a place up to another: two places and no slice, since the image is the program's to change until it is
    // printed
    Bytes(usize, usize),
}

impl From<bool> for Answer {
    ghost from_gives = { λ yes a. a ≡ yes_no yes };

    fn from(yes: bool) -> Answer {
        if yes { Answer::Yes } else { Answer::No }
    }
}

// The state after a command, and its answer.
#[derive(Clone, Copy)]
pub struct Done {
    pub state: State,
    pub answer: Answer,
}

impl State {
    // Before the first line there is neither an image nor a queue.
    pub fn new() -> State {
        State::of_image(0)
    }

    // A new image drops the queue, the pass and the chain.
    pub fn of_image(size: usize) -> State {
        State {
            size,
            plain: true,
            queue: None,
            pass: None,
            chain: None,
        }
    }

    // A region came: the next one adds to the table.
    pub fn mapped(self) -> State {
        State {
            plain: false,
            ..self
        }
    }

    // The queue alone changes; pass and chain stay.
    pub fn with_queue(self, q: Queue) -> State {
        State {
            queue: Some(q),
            ..self
        }
    }

    // A queue that is new, or reset: pass and chain are dropped.
    pub fn afresh(self, q: Queue) -> State {
        State {
            queue: Some(q),
            pass: None,
            chain: None,
            ..self
        }
    }

    pub fn with_pass(self, pass: Option<AvailIter>) -> State {
        State { pass, ..self }
    }

    pub fn with_chain(self, c: DescriptorChain) -> State {
        State {
            chain: Some(c),
            ..self
        }
    }

    pub fn answers(self, answer: Answer) -> Done {
        Done {
            state: self,
            answer,
        }
    }
}

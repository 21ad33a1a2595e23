// SPDX-License-Identifier: Apache-2.0 AND BSD-3-Clause
// What the library's calls answer, as replies: a call's value has a number, and the queue after it where it has one.
ghost use Rattle.std.specs.Prelude.{◌≡◌};
ghost use Rattle.lent.specs.State.{bit, done, number};
ghost use Rattle.lent.specs.Answers.{head_reply, put_then_answered};

use crate::state;
use crate::state::Reply;
use queue::{AvailIter, Error, Queue};

// The put is done, and used_event could not be read: an answer of the C interface and no refusal, since the put stands.
pub const NOT_ANSWERED: u32 = 65548;

impl From<()> for Reply<Queue> {
    ghost from_gives = { λ _ r. r ≡ number 0 };

    fn from(_done: ()) -> Reply<Queue> {
        Reply::number(0)
    }
}

impl From<bool> for Reply<Queue> {
    ghost from_gives = { λ b r. r ≡ number (bit b) };

    fn from(yes: bool) -> Reply<Queue> {
        Reply::number(u32::from(yes))
    }
}

impl From<u16> for Reply<Queue> {
    ghost from_gives = { λ n r. r ≡ number n };

    fn from(n: u16) -> Reply<Queue> {
        Reply::number(u32::from(n))
    }
}

impl From<AvailIter> for Reply<Queue> {
    ghost from_gives = { λ p r. r ≡ number p.last_index };

    fn from(pass: AvailIter) -> Reply<Queue> {
        pass.last_index.into()
    }
}

impl From<Queue> for Reply<Queue> {
    ghost from_gives = { λ q r. r ≡ done 0 q };

    fn from(q: Queue) -> Reply<Queue> {
        Reply::done(0, q)
    }
}

impl From<(bool, Queue)> for Reply<Queue> {
    ghost from_gives = { λ x r. r ≡ done (bit x.0) x.1 };

    fn from((yes, q): (bool, Queue)) -> Reply<Queue> {
        Reply::done(u32::from(yes), q)
    }
}

impl From<Option<(u16, Queue)>> for Reply<Queue> {
    ghost from_gives = { λ x r. r ≡ head_reply x };

    fn from(taken: Option<(u16, Queue)>) -> Reply<Queue> {
        match taken {
            Some((head, q)) => Reply::done(u32::from(head), q),
            None => Reply::number(state::NONE),
        }
    }
}

// The answer of put and question in one: where the question can't be answered, the put stands.
pub fn after_put(p: Queue, x: Result<(bool, Queue), Error>) -> Reply<Queue>
    ensures { result ≡ put_then_answered p x }
{
    match x {
        Ok(answered) => answered.into(),
        Err(_) => Reply::done(NOT_ANSWERED, p),
    }
}

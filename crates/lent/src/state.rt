// SPDX-License-Identifier: Apache-2.0 AND BSD-3-Clause
// The queue in ten words that the caller lends: loading it, and what a call leaves there.
ghost use Rattle.std.specs.Prelude.{◌≡◌, ◌≤◌, length};
ghost use Rattle.std.proofs.lemmas.List.Edits.{sets};
ghost use Rattle.lent.specs.State.{flag_of, read_of, words_of, load_of, done, number, code_of, Settled};

use crate::refusal::Refusal;
use queue::Queue;

pub const STATE_WORDS: usize = 10;

// There is none: no head, no descriptor. An answer of the C interface, and no refusal.
pub const NONE: u32 = 65536;

// The queue that the words hold, or why they hold none.
pub type Loaded = Result<Queue, Refusal>;

// What a call answers: a number, and what it works on (a queue, a chain) as it is after it, where the call changes it.
#[derive(Clone, Copy)]
pub struct Reply<T> {
    pub code: u32,
    pub after: Option<T>,
}

impl<T> Reply<T> {
    pub fn done(code: u32, after: T) -> Reply<T>
        ensures { result ≡ done code after }
    {
        Reply {
            code,
            after: Some(after),
        }
    }

    pub fn number(code: u32) -> Reply<T>
        ensures { result ≡ number code }
    {
        Reply { code, after: None }
    }
}

pub type Answer<T> = Result<Reply<T>, Refusal>;

// A flag is 0 or 1, and nothing else.
fn flag_in(word: u64) -> Option<bool>
    ensures { result ≡ flag_of word }
{
    match word {
        0 => Some(false),
        1 => Some(true),
        _ => None,
    }
}

#[tactic(auto, unfolding(crate::specs::State::read_of, crate::specs::State::fits))]
fn queue_in(state: &[u64]) -> Option<Queue>
    requires { 10 ≤ length state.now }
    ensures { result ≡ read_of state.now }
{
    Some(Queue {
        max_size: u16::try_from(state[0]).ok()?,
        next_avail: u16::try_from(state[1]).ok()?,
        next_used: u16::try_from(state[2]).ok()?,
        event_idx_enabled: flag_in(state[3])?,
        num_added: u16::try_from(state[4]).ok()?,
        size: u16::try_from(state[5]).ok()?,
        ready: flag_in(state[6])?,
        desc_table: state[7],
        avail_ring: state[8],
        used_ring: state[9],
    })
}

// (lent_chain has its like for a chain's words: see settle.)
#[tactic(auto, unfolding(crate::specs::State::load_of, crate::specs::State::read_of))]
pub fn load(state: &[u64]) -> Loaded
    ensures { result ≡ load_of state.now }
{
    if state.len() < STATE_WORDS {
        return Err(Refusal::StateShort);
    }
    queue_in(state).ok_or(Refusal::StateField)
}

// Word by word: an array of ten to copy from would name them all as well.
fn keep(state: &mut [u64], q: Queue)
    requires { 10 ≤ length state.old }
    ensures { state.new ≡ sets state.old 0 (words_of q) }
{
    state[0] = q.max_size as u64;
    state[1] = q.next_avail as u64;
    state[2] = q.next_used as u64;
    state[3] = q.event_idx_enabled as u64;
    state[4] = q.num_added as u64;
    state[5] = q.size as u64;
    state[6] = q.ready as u64;
    state[7] = q.desc_table;
    state[8] = q.avail_ring;
    state[9] = q.used_ring;
}

// The end of a call: what it answers.
pub fn answer<T: Drop>(x: Answer<T>) -> u32
    ensures { result ≡ code_of x }
{
    match x {
        Ok(reply) => reply.code,
        Err(why) => why.into(),
    }
}

// The end of a call that may change the queue: what it answers, and the state after it. `lent_chain` has its like for a chain's words:
// one function for both needs a trait, whose impl for a chain could stand neither there nor here, and is longer than the two.
pub fn settle(state: &mut [u64], x: Answer<Queue>) -> u32
    ensures { Settled state.old x result state.new }
{
    if let Ok(Reply { after: Some(q), .. }) = x
        && STATE_WORDS <= state.len()
    {
        keep(state, q);
    }
    answer(x)
}

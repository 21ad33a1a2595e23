// SPDX-License-Identifier: Apache-2.0 AND BSD-3-Clause
// Makes the call that it is given: one step of the world. By a match: a call is data (Call), and `Stepped` goes by its cases.
ghost use Rattle.std.specs.Prelude.{◌≡◌};
ghost use Rattle.ledger.specs.World.{step, set_of, on_taken, step_of, step_mem};
ghost use Rattle.ledger.specs.Step.{Stepped, tried};

use crate::{Answer, Call, Setting, Step};
use queue::{AvailIter, Error, Queue};

fn set(queue: Queue, setting: Setting) -> Result<Queue, Error>
    ensures { result ≡ set_of queue setting }
{
    match setting {
        Setting::Size(size) => queue.set_size(size),
        Setting::DescTable(low, high) => queue.set_desc_table_address(low, high),
        Setting::AvailRing(low, high) => queue.set_avail_ring_address(low, high),
        Setting::UsedRing(low, high) => queue.set_used_ring_address(low, high),
        Setting::Ready(ready) => Ok(queue.set_ready(ready)),
        Setting::EventIdx(enabled) => Ok(queue.set_event_idx(enabled)),
    }
}

impl Step {
    fn new(answer: Answer, queue: Queue, pass: AvailIter) -> Step
        ensures { result ≡ step answer queue pass }
    {
        Step {
            answer,
            queue,
            pass,
        }
    }
}

fn taken(queue: Queue, pass: AvailIter, got: Option<(u16, Queue)>) -> Step
    ensures { result ≡ on_taken queue pass got }
{
    match got {
        Some((head, after)) => Step::new(Answer::Took(head), after, pass),
        None => Step::new(Answer::NoEntry, queue, pass),
    }
}

// What a call leaves that isn't refused.
#[tactic(auto, unfolding(crate::specs::World::step_of, crate::specs::World::step_mem))]
fn attempt(
    call: Call,
    queue: Queue,
    pass: AvailIter,
    regions: &[u64],
    mem: &mut [u8],
) -> Result<Step, Error>
    ensures step { tried queue pass result ≡ step_of regions.now queue pass mem.old call }
    ensures mem { mem.new ≡ step_mem regions.now queue mem.old call }
{
    let done = Answer::Done;
    Ok(match call {
        Call::Set(setting) => Step::new(done, set(queue, setting)?, pass),
        Call::SetNextAvail(position) => Step::new(done, queue.set_next_avail(position), pass),
        Call::SetNextUsed(position) => Step::new(done, queue.set_next_used(position), pass),
        Call::Reset => Step::new(done, queue.reset(), pass),
        Call::Valid => Step::new(Answer::from(queue.is_valid(regions, mem)), queue, pass),
        Call::Begin => Step::new(done, queue, queue.iter(regions, mem)?),
        Call::NextHead => taken(queue, pass, queue.next_head(pass, regions, mem)),
        Call::Pop => taken(queue, pass, queue.pop_descriptor_chain(regions, mem)),
        Call::GoBack => Step::new(done, queue.go_to_previous_position(), pass),
        Call::Put(head, length) => Step::new(
            done,
            queue.add_used(regions, mem, head, length)?,
            pass,
        ),
        Call::Stop => {
            queue.disable_notification(regions, mem)?;
            Step::new(done, queue, pass)
        }
        Call::Ask => Step::new(
            Answer::from(queue.enable_notification(regions, mem)?),
            queue,
            pass,
        ),
        Call::Question => {
            let (needed, after) = queue.needs_notification(regions, mem)?;
            Step::new(Answer::from(needed), after, pass)
        }
    })
}

// A refusal hands back no queue: the caller's own is still the one. Queue and pass are no struct of their own: they are the first two parts of
// the world that the theorems speak of (`World`), and what is left of them stands in `Step`.
pub fn make(call: Call, queue: Queue, pass: AvailIter, regions: &[u64], mem: &mut [u8]) -> Step
    ensures { Stepped regions.now queue pass mem.old call result mem.new }
{
    match attempt(call, queue, pass, regions, mem) {
        Ok(step) => step,
        Err(reason) => Step::new(Answer::Refused(reason), queue, pass),
    }
}

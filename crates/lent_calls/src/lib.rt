// SPDX-License-Identifier: Apache-2.0 AND BSD-3-Clause
// The library's calls on what was loaded: words that hold no queue are refused by their own reason, else by the call's. A function for each
// function of the C interface, a line each: the call and its contract are what differs. Halves come as C has them, a flag and a number.
#![tactic(auto)]

ghost use Rattle.std.specs.Prelude.{◌≡◌, length};
ghost use Rattle.memory.specs.Access.{read2_of};
ghost use Rattle.queue.specs.State.{pass, with_ready, with_event_idx, with_next_avail, with_next_used};
ghost use Rattle.queue.specs.Config.{new_of, reset_of, set_size_of, set_desc_table_of, set_avail_ring_of, set_used_ring_of, valid_of};
ghost use Rattle.queue.specs.Avail.{idx_read, begin_of, head_of, pop_of, back_of};
ghost use Rattle.queue.specs.Used.{idx_addr, put_of, put_mem};
ghost use Rattle.queue.specs.Notify.{stop_of, stop_mem, ask_of, ask_mem, question_of};
ghost use Rattle.lent.specs.State.{bit, is_set, on_loaded, Now, Same};
ghost use Rattle.lent.specs.Answers.{made_on, configured, got, begun, taken, placed, stopped, asked, answered, half_of, put_asked, mem_of};

use lent::refusal::Refusal;
use lent::state::{Answer, Loaded};
use lent::{answers, state};
use queue::{AvailIter, Error, Queue};

// Half of an address: none where its flag is 0.
fn half(has: u32, x: u32) -> Option<u32>
    ensures { result ≡ half_of (is_set has) x }
{
    (has != 0).then_some(x)
}

pub fn reset(x: Loaded) -> Answer<Queue>
    ensures { result ≡ on_loaded x (λ q. Now 0 (reset_of q)) }
{
    Ok(x?.reset().into())
}

pub fn set_size(x: Loaded, size: u16) -> Answer<Queue>
    ensures { result ≡ on_loaded x (λ q. configured (set_size_of q size)) }
{
    Ok(x?.set_size(size)?.into())
}

pub fn set_desc_table_address(
    x: Loaded,
    has_low: u32,
    low: u32,
    has_high: u32,
    high: u32,
) -> Answer<Queue>
    ensures { result ≡ on_loaded x (λ q. configured (set_desc_table_of q (half_of (is_set has_low) low) (half_of (is_set has_high) high))) }
{
    let (low, high) = (half(has_low, low), half(has_high, high));
    Ok(x?.set_desc_table_address(low, high)?.into())
}

pub fn set_avail_ring_address(
    x: Loaded,
    has_low: u32,
    low: u32,
    has_high: u32,
    high: u32,
) -> Answer<Queue>
    ensures { result ≡ on_loaded x (λ q. configured (set_avail_ring_of q (half_of (is_set has_low) low) (half_of (is_set has_high) high))) }
{
    let (low, high) = (half(has_low, low), half(has_high, high));
    Ok(x?.set_avail_ring_address(low, high)?.into())
}

pub fn set_used_ring_address(
    x: Loaded,
    has_low: u32,
    low: u32,
    has_high: u32,
    high: u32,
) -> Answer<Queue>
    ensures { result ≡ on_loaded x (λ q. configured (set_used_ring_of q (half_of (is_set has_low) low) (half_of (is_set has_high) high))) }
{
    let (low, high) = (half(has_low, low), half(has_high, high));
    Ok(x?.set_used_ring_address(low, high)?.into())
}

pub fn set_ready(x: Loaded, ready: u32) -> Answer<Queue>
    ensures { result ≡ on_loaded x (λ q. Now 0 (with_ready q (is_set ready))) }
{
    Ok(x?.set_ready(ready != 0).into())
}

pub fn set_event_idx(x: Loaded, enabled: u32) -> Answer<Queue>
    ensures { result ≡ on_loaded x (λ q. Now 0 (with_event_idx q (is_set enabled))) }
{
    Ok(x?.set_event_idx(enabled != 0).into())
}

pub fn set_next_avail(x: Loaded, next_avail: u16) -> Answer<Queue>
    ensures { result ≡ on_loaded x (λ q. Now 0 (with_next_avail q next_avail)) }
{
    Ok(x?.set_next_avail(next_avail).into())
}

pub fn set_next_used(x: Loaded, next_used: u16) -> Answer<Queue>
    ensures { result ≡ on_loaded x (λ q. Now 0 (with_next_used q next_used)) }
{
    Ok(x?.set_next_used(next_used).into())
}

pub fn go_to_previous_position(x: Loaded) -> Answer<Queue>
    ensures { result ≡ on_loaded x (λ q. Now 0 (back_of q)) }
{
    Ok(x?.go_to_previous_position().into())
}

pub fn is_valid(x: Loaded, regions: &[u64], mem: &[u8]) -> Answer<Queue>
    ensures { result ≡ on_loaded x (λ q. Same (bit (valid_of regions.now (length mem.now) q))) }
{
    Ok(x?.is_valid(regions, mem).into())
}

pub fn avail_idx(x: Loaded, regions: &[u64], mem: &[u8]) -> Answer<Queue>
    ensures { result ≡ on_loaded x (λ q. got (idx_read regions.now q mem.now)) }
{
    Ok(x?.avail_idx(regions, mem).ok_or(Error::GuestMemory)?.into())
}

pub fn used_idx(x: Loaded, regions: &[u64], mem: &[u8]) -> Answer<Queue>
    ensures { result ≡ on_loaded x (λ q. got (read2_of regions.now mem.now (idx_addr q))) }
{
    Ok(x?.used_idx(regions, mem).ok_or(Error::GuestMemory)?.into())
}

pub fn iter(x: Loaded, regions: &[u64], mem: &[u8]) -> Answer<Queue>
    ensures { result ≡ on_loaded x (λ q. begun (begin_of regions.now q mem.now)) }
{
    Ok(x?.iter(regions, mem)?.into())
}

pub fn next_head(x: Loaded, regions: &[u64], mem: &[u8], last_index: u16) -> Answer<Queue>
    ensures { result ≡ on_loaded x (λ q. taken (head_of regions.now q (pass last_index) mem.now)) }
{
    Ok(x?.next_head(AvailIter { last_index }, regions, mem).into())
}

pub fn pop(x: Loaded, regions: &[u64], mem: &[u8]) -> Answer<Queue>
    ensures { result ≡ on_loaded x (λ q. taken (pop_of regions.now q mem.now)) }
{
    Ok(x?.pop_descriptor_chain(regions, mem).into())
}

pub fn add_used(x: Loaded, regions: &[u64], mem: &mut [u8], head: u16, len: u32) -> Answer<Queue>
    ensures value { result ≡ on_loaded x (λ q. placed (put_of regions.now q mem.old head len)) }
    ensures mem_after { mem.new ≡ mem_of x (λ q. put_mem regions.now q mem.old head len) mem.old }
{
    Ok(x?.add_used(regions, mem, head, len)?.into())
}

pub fn disable_notification(x: Loaded, regions: &[u64], mem: &mut [u8]) -> Answer<Queue>
    ensures value { result ≡ on_loaded x (λ q. stopped (stop_of regions.now q mem.old)) }
    ensures mem_after { mem.new ≡ mem_of x (λ q. stop_mem regions.now q mem.old) mem.old }
{
    Ok(x?.disable_notification(regions, mem)?.into())
}

pub fn enable_notification(x: Loaded, regions: &[u64], mem: &mut [u8]) -> Answer<Queue>
    ensures value { result ≡ on_loaded x (λ q. asked (ask_of regions.now q mem.old)) }
    ensures mem_after { mem.new ≡ mem_of x (λ q. ask_mem regions.now q mem.old) mem.old }
{
    Ok(x?.enable_notification(regions, mem)?.into())
}

pub fn needs_notification(x: Loaded, regions: &[u64], mem: &[u8]) -> Answer<Queue>
    ensures { result ≡ on_loaded x (λ q. answered (question_of regions.now q mem.now)) }
{
    Ok(x?.needs_notification(regions, mem)?.into())
}

pub fn put_and_ask(x: Loaded, regions: &[u64], mem: &mut [u8], head: u16, len: u32) -> Answer<Queue>
    ensures value { result ≡ on_loaded x (λ q. put_asked regions.now mem.old head len q) }
    ensures mem_after { mem.new ≡ mem_of x (λ q. put_mem regions.now q mem.old head len) mem.old }
{
    let p = x?.add_used(regions, mem, head, len)?;
    Ok(answers::after_put(p, p.needs_notification(regions, mem)))
}

pub fn new(state: &[u64], max_size: u16) -> Answer<Queue>
    ensures { result ≡ made_on state.now (configured (new_of max_size)) }
{
    if state.len() < state::STATE_WORDS {
        return Err(Refusal::StateShort);
    }
    Ok(Queue::new(max_size)?.into())
}

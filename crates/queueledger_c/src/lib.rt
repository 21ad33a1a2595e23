// SPDX-License-Identifier: Apache-2.0 AND BSD-3-Clause
// The library for C and Rust: its calls on numbers and lent slices. The queue is ten words that the caller keeps; every answer is a number
// (include/queueledger.h has them all). Every function is total: words that hold no queue are refused, and nothing is changed. Names, parameters and numbers
// are the C interface's.
#![tactic(auto)]

ghost use Rattle.std.specs.Prelude.{◌≡◌, true, false, length};
ghost use Rattle.adding.specs.Grow.{adding_of, table_with};
ghost use Rattle.memory.specs.Access.{read2_of};
ghost use Rattle.queue.specs.State.{pass, with_ready, with_event_idx, with_next_avail, with_next_used};
ghost use Rattle.queue.specs.Config.{new_of, reset_of, set_size_of, set_desc_table_of, set_avail_ring_of, set_used_ring_of, valid_of};
ghost use Rattle.queue.specs.Avail.{idx_read, begin_of, head_of, pop_of, back_of};
ghost use Rattle.queue.specs.Used.{idx_addr, put_of, put_mem};
ghost use Rattle.queue.specs.Notify.{stop_of, stop_mem, ask_of, ask_mem, question_of};
ghost use Rattle.lent.specs.State.{bit, is_set, load_of, on_loaded, code_of, Settled, Called, Now, Same};
ghost use Rattle.lent.specs.Answers.{made_on, configured, got, begun, taken, placed, stopped, asked, answered, half_of, put_asked, mem_of};
ghost use Rattle.lent.specs.Refusal.{adding_code};
ghost use Rattle.chain.specs.Steps.{step_of, filtered_of};
ghost use Rattle.lent_chain.specs.Walk.{held_of, went_code, kept_chain, on_held, went_walk, walk_array, went_step, step_array, start_of, Stay, WentOn, TookAll};

use lent::state::{answer, load, settle};
use lent_chain::{load_chain, settle_chain};
use regions::Region;

// A new queue: max_size is a power of two, at most 32,768. What the words held before does not matter.
#[unsafe(no_mangle)]
pub extern "C" fn ql_new(state: &mut [u64], max_size: u16) -> u32
    ensures { Settled state.old (made_on state.old (configured (new_of max_size))) result state.new }
{
    settle(state, lent_calls::new(state, max_size))
}

// Adds a region to the table: the len guest addresses from base on lie in a memory of size bytes, from offset on.
#[unsafe(no_mangle)]
pub extern "C" fn ql_add_region(
    regions: &mut [u64],
    size: usize,
    base: u64,
    len: u64,
    offset: u64,
) -> u32
    ensures value { result ≡ adding_code (adding_of regions.old size base len offset) }
    ensures regions_after { regions.new ≡ table_with regions.old size base len offset }
{
    let added = adding::add_region(regions, size, Region { base, len, offset });
    lent::refusal::adding_code(added)
}

// Everything back to the start, the largest size kept.
#[unsafe(no_mangle)]
pub extern "C" fn ql_reset(state: &mut [u64]) -> u32
    ensures { Called state.old (λ q. Now 0 (reset_of q)) result state.new }
{
    settle(state, lent_calls::reset(load(state)))
}

// The size that the driver chose: a power of two, at most the largest size.
#[unsafe(no_mangle)]
pub extern "C" fn ql_set_size(state: &mut [u64], size: u16) -> u32
    ensures { Called state.old (λ q. configured (set_size_of q size)) result state.new }
{
    settle(state, lent_calls::set_size(load(state), size))
}

// The addresses of the three areas, by halves: one whose flag is 0 keeps its bits.
#[unsafe(no_mangle)]
pub extern "C" fn ql_set_desc_table_address(
    state: &mut [u64],
    has_low: u32,
    low: u32,
    has_high: u32,
    high: u32,
) -> u32
    ensures { Called state.old (λ q. configured (set_desc_table_of q (half_of (is_set has_low) low) (half_of (is_set has_high) high))) result state.new }
{
    settle(
        state,
        lent_calls::set_desc_table_address(load(state), has_low, low, has_high, high),
    )
}

#[unsafe(no_mangle)]
pub extern "C" fn ql_set_avail_ring_address(
    state: &mut [u64],
    has_low: u32,
    low: u32,
    has_high: u32,
    high: u32,
) -> u32
    ensures { Called state.old (λ q. configured (set_avail_ring_of q (half_of (is_set has_low) low) (half_of (is_set has_high) high))) result state.new }
{
    settle(
        state,
        lent_calls::set_avail_ring_address(load(state), has_low, low, has_high, high),
    )
}

#[unsafe(no_mangle)]
pub extern "C" fn ql_set_used_ring_address(
    state: &mut [u64],
    has_low: u32,
    low: u32,
    has_high: u32,
    high: u32,
) -> u32
    ensures { Called state.old (λ q. configured (set_used_ring_of q (half_of (is_set has_low) low) (half_of (is_set has_high) high))) result state.new }
{
    settle(
        state,
        lent_calls::set_used_ring_address(load(state), has_low, low, has_high, high),
    )
}

// A flag is set by any number but 0.
#[unsafe(no_mangle)]
pub extern "C" fn ql_set_ready(state: &mut [u64], ready: u32) -> u32
    ensures { Called state.old (λ q. Now 0 (with_ready q (is_set ready))) result state.new }
{
    settle(state, lent_calls::set_ready(load(state), ready))
}

#[unsafe(no_mangle)]
pub extern "C" fn ql_set_event_idx(state: &mut [u64], enabled: u32) -> u32
    ensures { Called state.old (λ q. Now 0 (with_event_idx q (is_set enabled))) result state.new }
{
    settle(state, lent_calls::set_event_idx(load(state), enabled))
}

#[unsafe(no_mangle)]
pub extern "C" fn ql_set_next_avail(state: &mut [u64], next_avail: u16) -> u32
    ensures { Called state.old (λ q. Now 0 (with_next_avail q next_avail)) result state.new }
{
    settle(state, lent_calls::set_next_avail(load(state), next_avail))
}

#[unsafe(no_mangle)]
pub extern "C" fn ql_set_next_used(state: &mut [u64], next_used: u16) -> u32
    ensures { Called state.old (λ q. Now 0 (with_next_used q next_used)) result state.new }
{
    settle(state, lent_calls::set_next_used(load(state), next_used))
}

// A step back: the entry before counts as not taken.
#[unsafe(no_mangle)]
pub extern "C" fn ql_go_to_previous_position(state: &mut [u64]) -> u32
    ensures { Called state.old (λ q. Now 0 (back_of q)) result state.new }
{
    settle(state, lent_calls::go_to_previous_position(load(state)))
}

// 1 if the queue is ready and its three areas are whole in memory, else 0.
#[unsafe(no_mangle)]
pub extern "C" fn ql_is_valid(state: &[u64], regions: &[u64], mem: &[u8]) -> u32
    ensures { result ≡ code_of (on_loaded (load_of state.now) (λ q. Same (bit (valid_of regions.now (length mem.now) q)))) }
{
    answer(lent_calls::is_valid(load(state), regions, mem))
}

// The idx of the available ring, and of the used ring, as it stands in memory.
#[unsafe(no_mangle)]
pub extern "C" fn ql_avail_idx(state: &[u64], regions: &[u64], mem: &[u8]) -> u32
    ensures { result ≡ code_of (on_loaded (load_of state.now) (λ q. got (idx_read regions.now q mem.now))) }
{
    answer(lent_calls::avail_idx(load(state), regions, mem))
}

#[unsafe(no_mangle)]
pub extern "C" fn ql_used_idx(state: &[u64], regions: &[u64], mem: &[u8]) -> u32
    ensures { result ≡ code_of (on_loaded (load_of state.now) (λ q. got (read2_of regions.now mem.now (idx_addr q)))) }
{
    answer(lent_calls::used_idx(load(state), regions, mem))
}

// Begin: the idx that is the end of the pass, for ql_next_head and ql_take.
#[unsafe(no_mangle)]
pub extern "C" fn ql_iter(state: &[u64], regions: &[u64], mem: &[u8]) -> u32
    ensures { result ≡ code_of (on_loaded (load_of state.now) (λ q. begun (begin_of regions.now q mem.now))) }
{
    answer(lent_calls::iter(load(state), regions, mem))
}

// Next head: the next one of the pass that ends at last_index.
#[unsafe(no_mangle)]
pub extern "C" fn ql_next_head(
    state: &mut [u64],
    regions: &[u64],
    mem: &[u8],
    last_index: u16,
) -> u32
    ensures { Called state.old (λ q. taken (head_of regions.now q (pass last_index) mem.now)) result state.new }
{
    settle(
        state,
        lent_calls::next_head(load(state), regions, mem, last_index),
    )
}

// Pop: begin and next head in one.
#[unsafe(no_mangle)]
pub extern "C" fn ql_pop(state: &mut [u64], regions: &[u64], mem: &[u8]) -> u32
    ensures { Called state.old (λ q. taken (pop_of regions.now q mem.now)) result state.new }
{
    settle(state, lent_calls::pop(load(state), regions, mem))
}

// Put: the chain that starts at head is done, len bytes were written to it.
#[unsafe(no_mangle)]
pub extern "C" fn ql_add_used(
    state: &mut [u64],
    regions: &[u64],
    mem: &mut [u8],
    head: u16,
    len: u32,
) -> u32
    ensures called { Called state.old (λ q. placed (put_of regions.now q mem.old head len)) result state.new }
    ensures mem_after { mem.new ≡ mem_of (load_of state.old) (λ q. put_mem regions.now q mem.old head len) mem.old }
{
    settle(
        state,
        lent_calls::add_used(load(state), regions, mem, head, len),
    )
}

// Stop.
#[unsafe(no_mangle)]
pub extern "C" fn ql_disable_notification(state: &mut [u64], regions: &[u64], mem: &mut [u8]) -> u32
    ensures called { Called state.old (λ q. stopped (stop_of regions.now q mem.old)) result state.new }
    ensures mem_after { mem.new ≡ mem_of (load_of state.old) (λ q. stop_mem regions.now q mem.old) mem.old }
{
    settle(
        state,
        lent_calls::disable_notification(load(state), regions, mem),
    )
}

// Ask: 1 if something came in meanwhile, else 0.
#[unsafe(no_mangle)]
pub extern "C" fn ql_enable_notification(state: &mut [u64], regions: &[u64], mem: &mut [u8]) -> u32
    ensures called { Called state.old (λ q. asked (ask_of regions.now q mem.old)) result state.new }
    ensures mem_after { mem.new ≡ mem_of (load_of state.old) (λ q. ask_mem regions.now q mem.old) mem.old }
{
    settle(
        state,
        lent_calls::enable_notification(load(state), regions, mem),
    )
}

// The question: 1 if the driver must be notified, else 0.
#[unsafe(no_mangle)]
pub extern "C" fn ql_needs_notification(state: &mut [u64], regions: &[u64], mem: &[u8]) -> u32
    ensures { Called state.old (λ q. answered (question_of regions.now q mem.now)) result state.new }
{
    settle(
        state,
        lent_calls::needs_notification(load(state), regions, mem),
    )
}

// Put, and the question where it is done: 1 if the driver must be notified, else 0.
#[unsafe(no_mangle)]
pub extern "C" fn ql_put_and_ask(
    state: &mut [u64],
    regions: &[u64],
    mem: &mut [u8],
    head: u16,
    len: u32,
) -> u32
    ensures called { Called state.old (λ q. put_asked regions.now mem.old head len q) result state.new }
    ensures mem_after { mem.new ≡ mem_of (load_of state.old) (λ q. put_mem regions.now q mem.old head len) mem.old }
{
    settle(
        state,
        lent_calls::put_and_ask(load(state), regions, mem, head, len),
    )
}

// A chain from head on, as ql_next_head and ql_pop answer it.
#[unsafe(no_mangle)]
pub extern "C" fn ql_chain(state: &[u64], chain: &mut [u64], head: u16) -> u32
    ensures value { result ≡ went_code (start_of (load_of state.now) (length chain.old) head) }
    ensures chain_after { chain.new ≡ kept_chain chain.old (start_of (load_of state.now) (length chain.old) head) }
{
    settle_chain(chain, lent_chain::start(load(state), chain.len(), head))
}

// The next descriptor, the next readable one, the next writable one: 1 with the descriptor, or 0 where there is none.
#[unsafe(no_mangle)]
pub extern "C" fn ql_next(chain: &mut [u64], regions: &[u64], mem: &[u8], out: &mut [u64]) -> u32
    ensures { WentOn chain.old (on_held (held_of chain.old) (λ c. went_step out.old (step_of regions.now mem.now c)) Stay) (on_held (held_of chain.old) (λ c. step_array out.old (step_of regions.now mem.now c)) (λ k. out.old)) result chain.new out.new }
{
    settle_chain(
        chain,
        lent_chain::next(load_chain(chain), regions, mem, out),
    )
}

#[unsafe(no_mangle)]
pub extern "C" fn ql_next_readable(
    chain: &mut [u64],
    regions: &[u64],
    mem: &[u8],
    out: &mut [u64],
) -> u32
    ensures { WentOn chain.old (on_held (held_of chain.old) (λ c. went_step out.old (filtered_of false regions.now mem.now c)) Stay) (on_held (held_of chain.old) (λ c. step_array out.old (filtered_of false regions.now mem.now c)) (λ k. out.old)) result chain.new out.new }
{
    settle_chain(
        chain,
        lent_chain::next_readable(load_chain(chain), regions, mem, out),
    )
}

#[unsafe(no_mangle)]
pub extern "C" fn ql_next_writable(
    chain: &mut [u64],
    regions: &[u64],
    mem: &[u8],
    out: &mut [u64],
) -> u32
    ensures { WentOn chain.old (on_held (held_of chain.old) (λ c. went_step out.old (filtered_of true regions.now mem.now c)) Stay) (on_held (held_of chain.old) (λ c. step_array out.old (filtered_of true regions.now mem.now c)) (λ k. out.old)) result chain.new out.new }
{
    settle_chain(
        chain,
        lent_chain::next_writable(load_chain(chain), regions, mem, out),
    )
}

// The descriptors that are left of a chain, or as many as the array has room for, and how many they are.
#[unsafe(no_mangle)]
pub extern "C" fn ql_walk(chain: &mut [u64], regions: &[u64], mem: &[u8], out: &mut [u64]) -> u32
    ensures { WentOn chain.old (on_held (held_of chain.old) (went_walk regions.now mem.now out.old) Stay) (on_held (held_of chain.old) (walk_array regions.now mem.now out.old) (λ k. out.old)) result chain.new out.new }
{
    settle_chain(
        chain,
        lent_chain::walk_held(load_chain(chain), regions, mem, out),
    )
}

// Next head, chain and walk in one: how many descriptors are in the array. The head stands in the chain's words.
#[unsafe(no_mangle)]
pub extern "C" fn ql_take(
    state: &mut [u64],
    chain: &mut [u64],
    regions: &[u64],
    mem: &[u8],
    last_index: u16,
    out: &mut [u64],
) -> u32
    ensures { TookAll regions.now mem.now last_index state.old chain.old out.old result state.new chain.new out.new }
{
    let x = lent_chain::take(
        load(state),
        chain.len(),
        out.len(),
        regions,
        mem,
        last_index,
    );
    settle(state, lent_chain::reply(x));
    settle_chain(chain, lent_chain::walk_taken(x, regions, mem, out))
}

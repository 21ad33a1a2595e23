// SPDX-License-Identifier: Apache-2.0 AND BSD-3-Clause
// A chain in six words that the caller lends, and its descriptors in an array: address, length and flags of each.
#![tactic(auto)]

ghost use Rattle.std.specs.Prelude.{◌≡◌, true, false, ◌+◌, ◌≤◌, length};
ghost use Rattle.std.proofs.lemmas.List.Edits.{sets};
ghost use Rattle.chain.specs.Steps.{step_of, filtered_of};
ghost use Rattle.lent_chain.specs.Walk.{chain_words, read_chain, held_of, triple, Filled, went_code, kept_chain, on_held, went_walk, walk_array, went_step, step_array, start_of, take_of, taken_reply, on_taking, Stay, same};

use chain::DescriptorChain;
use desc::Descriptor;
use lent::refusal::Refusal;
use lent::state;
use lent::state::{Answer, Loaded, Reply};
use queue::{AvailIter, Queue};

pub const CHAIN_WORDS: usize = 6;

pub const DESCRIPTOR_WORDS: usize = 3;

// The chain that the words hold, or why they hold none.
pub type Held = Result<DescriptorChain, Refusal>;

// How many descriptors a walk yielded, and the chain behind them.
#[derive(Clone, Copy)]
pub struct Walked {
    pub count: u32,
    pub chain: DescriptorChain,
}

// What a call on a chain answers: a number, with the chain after it where its words change.
pub type Went = Answer<DescriptorChain>;

// What taking a head answers, before its chain is walked.
pub type Taking = Result<Option<(u16, Queue)>, Refusal>;

#[tactic(auto, unfolding(crate::specs::Walk::read_chain, crate::specs::Walk::fits_chain))]
fn chain_in(words: &[u64]) -> Option<DescriptorChain>
    requires { 6 ≤ length words.now }
    ensures { result ≡ read_chain words.now }
{
    Some(DescriptorChain {
        desc_table: words[0],
        queue_size: u16::try_from(words[1]).ok()?,
        head_index: u16::try_from(words[2]).ok()?,
        next_index: u16::try_from(words[3]).ok()?,
        ttl: u16::try_from(words[4]).ok()?,
        yielded_bytes: u32::try_from(words[5]).ok()?,
    })
}

// (As lent's load: see settle there.)
#[tactic(auto, unfolding(crate::specs::Walk::held_of, crate::specs::Walk::read_chain))]
pub fn load_chain(words: &[u64]) -> Held
    ensures { result ≡ held_of words.now }
{
    if words.len() < CHAIN_WORDS {
        return Err(Refusal::ChainShort);
    }
    chain_in(words).ok_or(Refusal::ChainField)
}

// Word by word, as lent's keep.
fn keep_chain(words: &mut [u64], c: DescriptorChain)
    requires { 6 ≤ length words.old }
    ensures { words.new ≡ sets words.old 0 (chain_words c) }
{
    words[0] = c.desc_table;
    words[1] = c.queue_size as u64;
    words[2] = c.head_index as u64;
    words[3] = c.next_index as u64;
    words[4] = c.ttl as u64;
    words[5] = c.yielded_bytes as u64;
}

// Word by word, as put_row of adding.
fn put_triple(out: &mut [u64], at: usize, d: Descriptor)
    requires { at + 3 ≤ length out.old }
    ensures { out.new ≡ sets out.old at (triple d) }
{
    out[at] = d.addr;
    out[at + 1] = d.len as u64;
    out[at + 2] = d.flags as u64;
}

// As many descriptors as there are, or as the array has room for.
// By row number: the rows that are filled are said of the whole array (Filled), which the chunks of it would not hand back.
fn walk_into(start: DescriptorChain, regions: &[u64], mem: &[u8], out: &mut [u64]) -> Walked
    ensures { Filled regions.now mem.now start out.old result out.new }
{
    let room = out.len() / DESCRIPTOR_WORDS;
    let mut c = start;
    for k in 0..room {
        let Some((d, rest)) = c.next(regions, mem) else {
            return Walked {
                count: k as u32,
                chain: c,
            };
        };
        put_triple(out, DESCRIPTOR_WORDS * k, d);
        c = rest;
    }
    Walked {
        count: room as u32,
        chain: c,
    }
}

// The end of every call on a chain. One function for this and lent's `settle` would want a trait for the words of either, longer than both.
pub fn settle_chain(words: &mut [u64], x: Went) -> u32
    ensures value { result ≡ went_code x }
    ensures words_after { words.new ≡ kept_chain words.old x }
{
    if let Ok(Reply { after: Some(c), .. }) = x
        && CHAIN_WORDS <= words.len()
    {
        keep_chain(words, c);
    }
    state::answer(x)
}

pub fn start(x: Loaded, words: usize, head: u16) -> Went
    ensures { result ≡ start_of x words head }
{
    if words < CHAIN_WORDS {
        return Err(Refusal::ChainShort);
    }
    let q = x?;
    let chain = DescriptorChain::new(q.desc_table, q.size, head);
    Ok(Reply::done(0, chain))
}

fn walk_chain(c: DescriptorChain, regions: &[u64], mem: &[u8], out: &mut [u64]) -> Went
    ensures value { result ≡ went_walk regions.now mem.now out.old c }
    ensures out_after { out.new ≡ walk_array regions.now mem.now out.old c }
{
    if out.len() < DESCRIPTOR_WORDS {
        return Err(Refusal::NoRoom);
    }
    let w = walk_into(c, regions, mem, out);
    Ok(Reply::done(w.count, w.chain))
}

pub fn walk_held(x: Held, regions: &[u64], mem: &[u8], out: &mut [u64]) -> Went
    ensures value { result ≡ on_held x (went_walk regions.now mem.now out.old) Stay }
    ensures out_after { out.new ≡ on_held x (walk_array regions.now mem.now out.old) (λ k. out.old) }
{
    walk_chain(x?, regions, mem, out)
}

fn stepped(x: Option<(Descriptor, DescriptorChain)>, out: &mut [u64]) -> Went
    ensures value { result ≡ went_step out.old x }
    ensures out_after { out.new ≡ step_array out.old x }
{
    if out.len() < DESCRIPTOR_WORDS {
        return Err(Refusal::NoRoom);
    }
    match x {
        Some((d, rest)) => {
            put_triple(out, 0, d);
            Ok(Reply::done(1, rest))
        }
        None => Ok(Reply::number(0)),
    }
}

// One line for each function of the C interface.
pub fn next(x: Held, regions: &[u64], mem: &[u8], out: &mut [u64]) -> Went
    ensures value { result ≡ on_held x (λ c. went_step out.old (step_of regions.now mem.now c)) Stay }
    ensures out_after { out.new ≡ on_held x (λ c. step_array out.old (step_of regions.now mem.now c)) (λ k. out.old) }
{
    stepped(x?.next(regions, mem), out)
}

pub fn next_readable(x: Held, regions: &[u64], mem: &[u8], out: &mut [u64]) -> Went
    ensures value { result ≡ on_held x (λ c. went_step out.old (filtered_of false regions.now mem.now c)) Stay }
    ensures out_after { out.new ≡ on_held x (λ c. step_array out.old (filtered_of false regions.now mem.now c)) (λ k. out.old) }
{
    stepped(x?.next_readable(regions, mem), out)
}

pub fn next_writable(x: Held, regions: &[u64], mem: &[u8], out: &mut [u64]) -> Went
    ensures value { result ≡ on_held x (λ c. went_step out.old (filtered_of true regions.now mem.now c)) Stay }
    ensures out_after { out.new ≡ on_held x (λ c. step_array out.old (filtered_of true regions.now mem.now c)) (λ k. out.old) }
{
    stepped(x?.next_writable(regions, mem), out)
}

// Nothing is taken where there is no room for what comes behind: words and room are the lengths of the two slices that the walk gets after the
// queue's words are settled.
#[tactic(auto, unfolding(crate::specs::Walk::take_of))]
pub fn take(
    x: Loaded,
    words: usize,
    room: usize,
    regions: &[u64],
    mem: &[u8],
    last_index: u16,
) -> Taking
    ensures { result ≡ take_of regions.now mem.now last_index words room x }
{
    if words < CHAIN_WORDS {
        return Err(Refusal::ChainShort);
    }
    if room < DESCRIPTOR_WORDS {
        return Err(Refusal::NoRoom);
    }
    Ok(x?.next_head(AvailIter { last_index }, regions, mem))
}

pub fn reply(x: Taking) -> Answer<Queue>
    ensures { result ≡ taken_reply x }
{
    Ok(x?.into())
}

pub fn walk_taken(x: Taking, regions: &[u64], mem: &[u8], out: &mut [u64]) -> Went
    ensures value { result ≡ on_taking x (went_walk regions.now mem.now out.old) same }
    ensures out_after { out.new ≡ on_taking x (walk_array regions.now mem.now out.old) (λ y. out.old) }
{
    match x? {
        Some((head, q)) => walk_chain(
            DescriptorChain::new(q.desc_table, q.size, head),
            regions,
            mem,
            out,
        ),
        None => Ok(Reply::number(state::NONE)),
    }
}

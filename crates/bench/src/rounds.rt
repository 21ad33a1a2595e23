// SPDX-License-Identifier: Apache-2.0 AND BSD-3-Clause
// The rounds: the driver comes once in 64, and adds 64 entries; the device takes a chain, walks it, puts it and asks. A call that is
// refused adds nothing.
use crate::input::Numbers;
use chain::DescriptorChain;
use queue::Queue;

// The queue and what was added up so far.
#[derive(Clone, Copy)]
struct Sums {
    queue: Queue,
    sum: u64,
}

// What a walk adds up, and the length of the last descriptor.
#[derive(Clone, Copy)]
struct Walked {
    sum: u64,
    last: u32,
}

fn with_areas(q: Queue, n: Numbers) -> Queue {
    let a = q.set_desc_table_address(Some(n.desc), None).unwrap_or(q);
    let b = a.set_avail_ring_address(Some(n.avail), None).unwrap_or(a);
    b.set_used_ring_address(Some(n.used), None).unwrap_or(b)
}

pub fn configure(n: Numbers) -> Option<Queue> {
    let q = Queue::new(n.size).ok()?;
    Some(with_areas(q, n).set_event_idx(n.event).set_ready(true))
}

// The driver: used_event, then idx, which it answers.
fn drive(avail: u64, size: u16, idx: u16, table: &[u64], mem: &mut [u8]) -> u16 {
    let event = idx.wrapping_add(31);
    writing::write(table, mem, avail, 4 + 2 * u32::from(size), event);
    let next = idx.wrapping_add(64);
    writing::write(table, mem, avail, 2, next);
    next
}

// Walks a chain to its end.
#[tactic(auto, using(chain::specs::Walk::step_falls))]
fn walk(chain: DescriptorChain, sum: u64, table: &[u64], mem: &[u8]) -> Walked {
    let mut c = chain;
    let mut walked = Walked { sum, last: 0 };
    while let Some((d, rest)) = c.next(table, mem) {
        walked = Walked {
            sum: walked
                .sum
                .wrapping_add(d.addr)
                .wrapping_add(u64::from(d.flags)),
            last: d.len,
        };
        c = rest;
    }
    walked
}

// A yes to the question is worth the round's number.
fn asked(q: Queue, sum: u64, number: u64, table: &[u64], mem: &[u8]) -> Sums {
    let (needed, queue) = q.needs_notification(table, mem).unwrap_or((false, q));
    let worth = if needed { number } else { 0 };
    Sums {
        queue,
        sum: sum.wrapping_add(worth),
    }
}

fn round(s: Sums, number: u64, table: &[u64], mem: &mut [u8]) -> Sums {
    let Some((head, q)) = s.queue.pop_descriptor_chain(table, mem) else {
        return s;
    };
    let chain = DescriptorChain::new(q.desc_table, q.size, head);
    let w = walk(chain, s.sum, table, mem);
    let put = q.add_used(table, mem, head, w.last).unwrap_or(q);
    asked(put, w.sum, number, table, mem)
}

// The driver comes before the rounds 0, 64, 128 and so on.
pub fn all(n: Numbers, q: Queue, table: &[u64], mem: &mut [u8]) -> u64 {
    let mut s = Sums { queue: q, sum: 0 };
    let mut idx: u16 = 0;
    for i in 0..n.rounds {
        if i % 64 == 0 {
            idx = drive(u64::from(n.avail), n.size, idx, table, mem);
        }
        s = round(s, i + 1, table, mem);
    }
    s.sum
}

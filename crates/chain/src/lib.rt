// SPDX-License-Identifier: Apache-2.0 AND BSD-3-Clause
// Descriptor chains: the walk along one, the two filtered walks, and laying one into guest memory.
#![tactic(auto)]

pub mod lay;

ghost use Rattle.std.specs.Prelude.{◌≡◌, true, false, ◌<◌};
ghost use Rattle.chain.specs.Steps.{chain_at, taken, step_of, Sought};

use desc::Descriptor;

// What is left of a chain. The guest writes the table that it is read from, so nothing in it is trusted.
#[derive(Clone, Copy)]
pub struct DescriptorChain {
    pub desc_table: u64,
    pub queue_size: u16,
    pub head_index: u16,
    pub next_index: u16,
    // The ration: how many descriptors may still be yielded. A loop in the table ends by it.
    pub ttl: u16,
    pub yielded_bytes: u32,
}

impl DescriptorChain {
    // The chain from head_index on, in a table of queue_size descriptors at guest address desc_table.
    pub fn new(desc_table: u64, queue_size: u16, head_index: u16) -> DescriptorChain
        ensures { result ≡ chain_at desc_table queue_size head_index }
    {
        DescriptorChain {
            desc_table,
            queue_size,
            head_index,
            next_index: head_index,
            ttl: queue_size,
            yielded_bytes: 0,
        }
    }

    pub fn head_index(self) -> u16
        ensures { result ≡ self.head_index }
    {
        self.head_index
    }

    // What a descriptor that was read does to the chain.
    #[tactic(auto, unfolding(crate::specs::Steps::taken))]
    fn take(self, d: Descriptor) -> Option<(Descriptor, DescriptorChain)>
        requires { 0 < self.ttl }
        ensures { result ≡ taken self d }
    {
        if d.refers_to_indirect_table() {
            return None;
        }
        // A chain has at most 2^32 - 1 bytes; 2.7.5.2 forbids a driver to add one of more than 2^32.
        let yielded_bytes = self.yielded_bytes.checked_add(d.len)?;
        let (next_index, ttl) = if d.has_next() {
            (d.next, self.ttl - 1)
        } else {
            (self.next_index, 0)
        };
        let rest = DescriptorChain {
            next_index,
            ttl,
            yielded_bytes,
            ..self
        };
        Some((d, rest))
    }

    // The next descriptor with the chain behind it, or that there is none. The descriptor is read once: a guest that rewrites it
    // meanwhile changes nothing of the answer.
    // Not an Iterator: the chain is a value of the C interface (six words), memory is lent for one call, and most who walk want the chain
    // behind too.
    #[tactic(auto, unfolding(crate::specs::Steps::step_of, crate::specs::Sequence::entry))]
    pub fn next(self, regions: &[u64], mem: &[u8]) -> Option<(Descriptor, DescriptorChain)>
        ensures { result ≡ step_of regions.now mem.now self }
    {
        if self.ttl == 0 || self.next_index >= self.queue_size {
            return None;
        }
        let d = desc::read_descriptor(regions, mem, self.desc_table, self.next_index)?;
        self.take(d)
    }

    // The next writable descriptor, or the next readable one; the others are skipped. Each turn takes from the ration.
    fn next_where(
        self,
        regions: &[u64],
        mem: &[u8],
        writable: bool,
    ) -> Option<(Descriptor, DescriptorChain)>
        ensures { Sought writable regions.now mem.now self result }
    {
        let mut c = self;
        while let Some((d, rest)) = c.next(regions, mem) {
            if d.is_write_only() == writable {
                return Some((d, rest));
            }
            c = rest;
        }
        None
    }

    // Two of one line, as the C interface has them.
    pub fn next_readable(self, regions: &[u64], mem: &[u8]) -> Option<(Descriptor, DescriptorChain)>
        ensures { Sought false regions.now mem.now self result }
    {
        self.next_where(regions, mem, false)
    }

    pub fn next_writable(self, regions: &[u64], mem: &[u8]) -> Option<(Descriptor, DescriptorChain)>
        ensures { Sought true regions.now mem.now self result }
    {
        self.next_where(regions, mem, true)
    }
}

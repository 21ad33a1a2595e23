// SPDX-License-Identifier: Apache-2.0 AND BSD-3-Clause
// The used ring: put.
ghost use Rattle.std.specs.Prelude.{◌≡◌, ◌+◌};
ghost use Rattle.memory.specs.Access.{read2_of};
ghost use Rattle.queue.specs.Used.{idx_addr, Put};

use crate::{Error, Queue, ring};

impl Queue {
    // The idx of the used ring, as it stands in memory.
    pub fn used_idx(self, regions: &[u64], mem: &[u8]) -> Option<u16>
        ensures { result ≡ read2_of regions.now mem.now (idx_addr self) }
    {
        memory::read(regions, mem, self.used_ring, 2)
    }

    // Put: a chain that starts at head_index is done, len bytes were written to it.
    pub fn add_used(
        self,
        regions: &[u64],
        mem: &mut [u8],
        head_index: u16,
        len: u32,
    ) -> Result<Queue, Error>
        ensures { Put regions.now self mem.old head_index len result mem.new }
    {
        if head_index >= self.size {
            return Err(Error::InvalidDescriptorIndex);
        }
        let off = ring::used_offset(ring::place(self.next_used, self.size));
        let mut q = self;
        q.next_used = q.next_used.wrapping_add(1);
        q.num_added = q.num_added.wrapping_add(1);
        // whether idx can be written is known before the entry is: the crate would have written it and grown its numbers by then
        if !desc::publish_used(
            regions,
            mem,
            self.used_ring,
            off,
            head_index as u32,
            len,
            q.next_used,
        ) {
            return Err(Error::GuestMemory);
        }
        Ok(q)
    }
}

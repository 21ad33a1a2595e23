// SPDX-License-Identifier: Apache-2.0 AND BSD-3-Clause
// The available ring: begin, next head, pop, and a step back. Nothing here writes guest memory.
ghost use Rattle.std.specs.Prelude.{◌≡◌};
ghost use Rattle.queue.specs.Avail.{idx_read, begin_of, head_of, pop_of, back_of};

use crate::{AvailIter, Error, Queue, ring};

impl Queue {
    // The idx of the available ring, as it stands in memory. (One for each ring, as the crate and the C interface have them.)
    pub fn avail_idx(self, regions: &[u64], mem: &[u8]) -> Option<u16>
        ensures { result ≡ idx_read regions.now self mem.now }
    {
        memory::read(regions, mem, self.avail_ring, 2)
    }

    // Begin: a reset that no configuration followed has no ring at 0. idx is read once and remembered for the pass. A driver never has more
    // entries open than the queue has places: an idx further off would make the device take entries twice.
    #[tactic(auto, using(crate::specs::Avail::begin_not_ready, crate::specs::Avail::begin_no_ring, crate::specs::Avail::begin_fault, crate::specs::Avail::begin_index, crate::specs::Avail::begin_pass, crate::specs::Wrap::wraps_to))]
    pub fn iter(self, regions: &[u64], mem: &[u8]) -> Result<AvailIter, Error>
        ensures { result ≡ begin_of regions.now self mem.now }
    {
        if !self.ready || self.avail_ring == 0 {
            return Err(Error::QueueNotReady);
        }
        let idx = self.avail_idx(regions, mem).ok_or(Error::GuestMemory)?;
        if idx.wrapping_sub(self.next_avail) > self.size {
            return Err(Error::InvalidAvailRingIndex);
        }
        Ok(AvailIter { last_index: idx })
    }

    // Next head: the entry is not tested, a head beyond the size is a chain without descriptors. A size of 0 has no entries. An entry that
    // can't be read is "none", as in the crate, which swallows the error: the position stays.
    #[tactic(auto, using(crate::specs::Avail::head_end, crate::specs::Avail::head_no_place, crate::specs::Avail::head_read))]
    pub fn next_head(mut self, pass: AvailIter, regions: &[u64], mem: &[u8]) -> Option<(u16, Queue)>
        ensures { result ≡ head_of regions.now self pass mem.now }
    {
        if self.next_avail == pass.last_index || self.size == 0 {
            return None;
        }
        let off = ring::avail_offset(ring::place(self.next_avail, self.size));
        let head = memory::read(regions, mem, self.avail_ring, off)?;
        self.next_avail = self.next_avail.wrapping_add(1);
        Some((head, self))
    }

    // Pop: begin and next head in one. A refused begin is "none", as in the crate, which swallows the reason.
    #[tactic(auto, using(crate::specs::Avail::pop_begun, crate::specs::Avail::pop_refused))]
    pub fn pop_descriptor_chain(self, regions: &[u64], mem: &[u8]) -> Option<(u16, Queue)>
        ensures { result ≡ pop_of regions.now self mem.now }
    {
        let pass = self.iter(regions, mem).ok()?;
        self.next_head(pass, regions, mem)
    }

    // A step back: the entry before counts as not taken.
    #[tactic(auto, using(crate::specs::Avail::back_is))]
    pub fn go_to_previous_position(mut self) -> Queue
        ensures { result ≡ back_of self }
    {
        self.next_avail = self.next_avail.wrapping_sub(1);
        self
    }
}

// SPDX-License-Identifier: Apache-2.0 AND BSD-3-Clause
// Configuration: what the driver sets through the transport, reset, and the question whether the three areas are in memory.
//
// The crate logs a refused setting and goes on; here the refusal is the answer, and the caller's queue is the one that it was.
ghost use Rattle.std.specs.Prelude.{◌≡◌, ◌<◌, length};
ghost use Rattle.queue.specs.State.{with_ready, with_event_idx, with_next_avail, with_next_used};
ghost use Rattle.queue.specs.Config.{fresh, new_of, reset_of, set_size_of, whole_of, aligned_of, set_desc_table_of, set_avail_ring_of, set_used_ring_of, valid_of};

use crate::{Error, Queue, ring};

// The largest size of a split queue (VIRTIO 1.2, 2.7).
pub const MAX_QUEUE_SIZE: u16 = 32768;

// An address by its halves: a half that is not given keeps its bits. They are two parameters and no struct, as in the crate, since a driver
// writes one or the other.
#[tactic(auto, unfolding(crate::specs::Config::whole_of))]
fn whole(old: u64, low: Option<u32>, high: Option<u32>) -> u64
    ensures { result ≡ whole_of old low high }
{
    let low = low.unwrap_or((old % 4294967296) as u32);
    let high = high.unwrap_or((old / 4294967296) as u32);
    u64::from(high) * 4294967296 + u64::from(low)
}

// The address, where it is a multiple of align.
fn aligned(addr: u64, align: u64, reason: Error) -> Result<u64, Error>
    requires { 0 < align }
    ensures { result ≡ aligned_of addr align reason }
{
    if addr % align == 0 {
        Ok(addr)
    } else {
        Err(reason)
    }
}

fn fresh_queue(max_size: u16) -> Queue
    ensures { result ≡ fresh max_size }
{
    Queue {
        max_size,
        next_avail: 0,
        next_used: 0,
        event_idx_enabled: false,
        num_added: 0,
        size: max_size,
        ready: false,
        desc_table: 0,
        avail_ring: 0,
        used_ring: 0,
    }
}

impl Queue {
    // The largest size becomes the size, so it has to be a power of two as every size (VIRTIO 1.2, 2.7).
    #[tactic(auto, unfolding(crate::specs::Config::new_of))]
    pub fn new(max_size: u16) -> Result<Queue, Error>
        ensures { result ≡ new_of max_size }
    {
        if !ring::good_size(max_size, MAX_QUEUE_SIZE) {
            return Err(Error::InvalidMaxSize);
        }
        Ok(fresh_queue(max_size))
    }

    // Everything back to the start, the largest size kept.
    #[tactic(auto, unfolding(crate::specs::Config::reset_of))]
    pub fn reset(self) -> Queue
        ensures { result ≡ reset_of self }
    {
        fresh_queue(self.max_size)
    }

    #[tactic(auto, unfolding(crate::specs::Config::set_size_of))]
    pub fn set_size(mut self, size: u16) -> Result<Queue, Error>
        ensures { result ≡ set_size_of self size }
    {
        if !ring::good_size(size, self.max_size) {
            return Err(Error::InvalidSize);
        }
        self.size = size;
        Ok(self)
    }

    // Three functions, as the crate and the C interface have them: what they share is `whole` and `aligned`.
    // The alignments of VIRTIO 1.2, 2.7: 16, 2 and 4. The test is made on the whole address, whichever halves are given.
    #[tactic(auto, unfolding(crate::specs::Config::set_desc_table_of))]
    pub fn set_desc_table_address(
        mut self,
        low: Option<u32>,
        high: Option<u32>,
    ) -> Result<Queue, Error>
        ensures { result ≡ set_desc_table_of self low high }
    {
        self.desc_table = aligned(
            whole(self.desc_table, low, high),
            desc::VIRTQ_DESC_TABLE_ALIGN,
            Error::InvalidDescTableAlign,
        )?;
        Ok(self)
    }

    #[tactic(auto, unfolding(crate::specs::Config::set_avail_ring_of))]
    pub fn set_avail_ring_address(
        mut self,
        low: Option<u32>,
        high: Option<u32>,
    ) -> Result<Queue, Error>
        ensures { result ≡ set_avail_ring_of self low high }
    {
        self.avail_ring = aligned(
            whole(self.avail_ring, low, high),
            desc::VIRTQ_AVAIL_RING_ALIGN,
            Error::InvalidAvailRingAlign,
        )?;
        Ok(self)
    }

    #[tactic(auto, unfolding(crate::specs::Config::set_used_ring_of))]
    pub fn set_used_ring_address(
        mut self,
        low: Option<u32>,
        high: Option<u32>,
    ) -> Result<Queue, Error>
        ensures { result ≡ set_used_ring_of self low high }
    {
        self.used_ring = aligned(
            whole(self.used_ring, low, high),
            desc::VIRTQ_USED_RING_ALIGN,
            Error::InvalidUsedRingAlign,
        )?;
        Ok(self)
    }

    // What the driver sets as it is, by the crate's names.
    pub fn set_ready(mut self, ready: bool) -> Queue
        ensures { result ≡ with_ready self ready }
    {
        self.ready = ready;
        self
    }

    pub fn set_event_idx(mut self, enabled: bool) -> Queue
        ensures { result ≡ with_event_idx self enabled }
    {
        self.event_idx_enabled = enabled;
        self
    }

    pub fn set_next_avail(mut self, next_avail: u16) -> Queue
        ensures { result ≡ with_next_avail self next_avail }
    {
        self.next_avail = next_avail;
        self
    }

    pub fn set_next_used(mut self, next_used: u16) -> Queue
        ensures { result ≡ with_next_used self next_used }
    {
        self.next_used = next_used;
        self
    }

    // Ready, and the whole of the three areas in memory. No other call asks this, and overlap of the three is not tested.
    #[tactic(auto, unfolding(crate::specs::Config::valid_of))]
    pub fn is_valid(self, regions: &[u64], mem: &[u8]) -> bool
        ensures { result ≡ valid_of regions.now (length mem.now) self }
    {
        let size = u32::from(self.size);
        let table = desc::VIRTQ_DESCRIPTOR_SIZE * size;
        let avail = desc::VIRTQ_AVAIL_RING_META_SIZE + desc::VIRTQ_AVAIL_ELEMENT_SIZE * size;
        let used = desc::VIRTQ_USED_RING_META_SIZE + desc::VIRTQ_USED_ELEMENT_SIZE * size;
        self.ready
            && memory::can_read(regions, mem.len(), self.desc_table, 0, table)
            && memory::can_read(regions, mem.len(), self.avail_ring, 0, avail)
            && memory::can_write(regions, mem.len(), self.used_ring, 0, used)
    }

    // What the queue says of itself, by the crate's names.
    pub fn max_size(self) -> u16
        ensures { result ≡ self.max_size }
    {
        self.max_size
    }

    pub fn size(self) -> u16
        ensures { result ≡ self.size }
    {
        self.size
    }

    pub fn ready(self) -> bool
        ensures { result ≡ self.ready }
    {
        self.ready
    }

    pub fn event_idx_enabled(self) -> bool
        ensures { result ≡ self.event_idx_enabled }
    {
        self.event_idx_enabled
    }

    pub fn next_avail(self) -> u16
        ensures { result ≡ self.next_avail }
    {
        self.next_avail
    }

    pub fn next_used(self) -> u16
        ensures { result ≡ self.next_used }
    {
        self.next_used
    }

    pub fn desc_table(self) -> u64
        ensures { result ≡ self.desc_table }
    {
        self.desc_table
    }

    pub fn avail_ring(self) -> u64
        ensures { result ≡ self.avail_ring }
    {
        self.avail_ring
    }

    pub fn used_ring(self) -> u64
        ensures { result ≡ self.used_ring }
    {
        self.used_ring
    }
}

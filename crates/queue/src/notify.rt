// SPDX-License-Identifier: Apache-2.0 AND BSD-3-Clause
// Notification: stop, ask, and the question whether the driver must be notified.
ghost use Rattle.std.specs.Prelude.{◌≡◌, ℕ, ◌+◌, ◌*◌};
ghost use Rattle.queue.specs.Notify.{ask_off, ask_word, tells, Stop, Ask, question_of};

use crate::{Error, Queue, ring};

// What asking writes, and where, from the start of the used ring: next available to avail_event where the event index is on, else 0 to the flags.
fn ask_offset(event: bool, size: u16) -> u32
    ensures { result ≡ ask_off event size }
{
    if event { ring::used_offset(size) } else { 0 }
}

// (Two functions, since the definitions are two: ask_off, ask_word.)
fn ask_word(event: bool, next_avail: u16) -> u16
    ensures { result ≡ ask_word event next_avail }
{
    if event { next_avail } else { 0 }
}

// Whether used_event names one of the entries that were added: VIRTIO 1.2, 2.7.7, with all numbers modulo 65,536.
fn event_passed(next_used: u16, num_added: u16, used_event: u16) -> bool
    ensures { result ≡ tells next_used num_added used_event }
{
    let old = next_used.wrapping_sub(num_added);
    let behind = next_used.wrapping_sub(used_event).wrapping_sub(1);
    let grew = next_used.wrapping_sub(old);
    behind < grew
}

impl Queue {
    // Stop: with the event index on there is nothing to write, since the driver notifies once for each time it is asked.
    pub fn disable_notification(self, regions: &[u64], mem: &mut [u8]) -> Result<(), Error>
        ensures { Stop regions.now self mem.old result mem.new }
    {
        if self.event_idx_enabled {
            return Ok(());
        }
        if !writing::write(
            regions,
            mem,
            self.used_ring,
            0,
            desc::VRING_USED_F_NO_NOTIFY,
        ) {
            return Err(Error::GuestMemory);
        }
        Ok(())
    }

    // Ask: the write comes before the read, so that an entry that a driver adds in between is seen here or notified. A write that was
    // made before a read that fails stays. Any other idx means that something came in, not only a larger one, since idx wraps.
    pub fn enable_notification(self, regions: &[u64], mem: &mut [u8]) -> Result<bool, Error>
        ensures { Ask regions.now self mem.old result mem.new }
    {
        let off = ask_offset(self.event_idx_enabled, self.size);
        let word = ask_word(self.event_idx_enabled, self.next_avail);
        if !writing::write(regions, mem, self.used_ring, off, word) {
            return Err(Error::GuestMemory);
        }
        let idx = self.avail_idx(regions, mem).ok_or(Error::GuestMemory)?;
        Ok(idx != self.next_avail)
    }

    // The question: must the driver be notified? The available ring's flag NO_INTERRUPT is not looked at, as in the crate. Added falls to 0
    // only where the question is answered: a refused one can be asked again.
    #[tactic(auto, using(crate::specs::Notify::question_off, crate::specs::Notify::question_read))]
    pub fn needs_notification(mut self, regions: &[u64], mem: &[u8]) -> Result<(bool, Queue), Error>
        ensures { result ≡ question_of regions.now self mem.now }
    {
        if !self.event_idx_enabled {
            return Ok((true, self));
        }
        let off = ring::avail_offset(self.size);
        let used_event = memory::read(regions, mem, self.avail_ring, off).ok_or(
            Error::GuestMemory,
        )?;
        let needed = event_passed(self.next_used, self.num_added, used_event);
        self.num_added = 0;
        Ok((needed, self))
    }
}

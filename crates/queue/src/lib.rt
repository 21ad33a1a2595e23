// SPDX-License-Identifier: Apache-2.0 AND BSD-3-Clause
// The split queue, device side: ten numbers and flags by value, a pass over the available ring, and why a call is refused.
//
// A call that can be refused answers what changed, or the reason. A refusal hands back no queue: the caller's own is still the one.
#![tactic(auto)]

pub mod config; // config.rt: what the driver sets, reset, and whether the three areas are in memory
pub mod avail; // avail.rt: a pass over the available ring
pub mod used; // used.rt: entries of the used ring
pub mod notify; // notify.rt: who has to be notified
mod ring; // ring.rt: sizes, and places in a ring

#[derive(Clone, Copy)]
pub struct Queue {
    // The largest size that the device offers.
    pub max_size: u16,
    // The number, modulo 65,536, of the next entry to take from the available ring.
    pub next_avail: u16,
    // The number, modulo 65,536, of the next entry to put into the used ring.
    pub next_used: u16,
    // VIRTIO_F_EVENT_IDX was negotiated.
    pub event_idx_enabled: bool,
    // The entries put since the last question for notification that was answered with event index on, modulo 65,536.
    pub num_added: u16,
    // The size that the driver chose.
    pub size: u16,
    // The driver is done with configuration.
    pub ready: bool,
    // Guest addresses of the three areas.
    pub desc_table: u64,
    pub avail_ring: u64,
    pub used_ring: u64,
}

// A pass over the available ring: the idx that was read when it began.
#[derive(Clone, Copy)]
pub struct AvailIter {
    pub last_index: u16,
}

// Why a call was refused.
#[derive(Clone, Copy, Debug, PartialEq, Eq)]
pub enum Error {
    InvalidMaxSize,
    InvalidSize,
    InvalidDescTableAlign,
    InvalidAvailRingAlign,
    InvalidUsedRingAlign,
    QueueNotReady,
    InvalidAvailRingIndex,
    InvalidDescriptorIndex,
    // A field is not in guest memory, or its address passes 2^64.
    GuestMemory,
}

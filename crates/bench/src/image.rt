// SPDX-License-Identifier: Apache-2.0 AND BSD-3-Clause
// The image as a driver left it, and its checksum.
use crate::input::Numbers;
use desc::{Descriptor, VRING_DESC_F_NEXT, VRING_DESC_F_WRITE};
use regions::Region;

// So many regions of equal length, one after the other.
pub fn add_regions(count: u64, size: usize, table: &mut [u64]) {
    let Some(share) = (size as u64).checked_div(count) else {
        return;
    };
    for i in 0..count {
        let base = share.wrapping_mul(i);
        let row = Region {
            base,
            len: share,
            offset: base,
        };
        let _ = adding::add_region(table, size, row);
    }
}

// Descriptor i: chains of four, readable, readable, writable, writable.
fn descriptor(i: u16, next: u16) -> Descriptor {
    let k = u64::from(i);
    Descriptor {
        addr: 0x8000 + 64 * k,
        len: 64 + u32::from(i),
        flags: flags(i % 4),
        next,
    }
}

fn flags(place: u16) -> u16 {
    match place {
        0 | 1 => VRING_DESC_F_NEXT,
        2 => VRING_DESC_F_NEXT | VRING_DESC_F_WRITE,
        _ => VRING_DESC_F_WRITE,
    }
}

fn lay_one(n: Numbers, table: &[u64], mem: &mut [u8], i: u16, next: u16, head: u16) {
    desc::write_descriptor(table, mem, u64::from(n.desc), i, descriptor(i, next));
    writing::write(table, mem, u64::from(n.avail), 4 + 2 * u32::from(i), head);
}

// All descriptors, and all entries of the available ring: the heads in turn.
pub fn lay(n: Numbers, table: &[u64], mem: &mut [u8]) {
    let mut head: u16 = 0;
    for i in 0..n.size {
        lay_one(n, table, mem, i, following(i, 1, n.size), head);
        head = following(head, 4, n.size);
    }
}

fn following(i: u16, step: u16, size: u16) -> u16 {
    i.wrapping_add(step).checked_rem(size).unwrap_or(0)
}

// h = 31 h + byte, modulo 2^64.
pub fn checksum(mem: &[u8]) -> u64 {
    mem.iter().fold(0u64, |h, b| h.wrapping_mul(31).wrapping_add(u64::from(*b)))
}

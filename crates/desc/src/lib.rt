// SPDX-License-Identifier: Apache-2.0 AND BSD-3-Clause
// The layouts of a split queue's three areas, the split descriptor and the used element.
#![tactic(auto)]

ghost use Rattle.std.specs.Prelude.{◌≡◌, ◌+◌};
ghost use Rattle.std.proofs.Common.{rules};
ghost use Rattle.wire.specs.Number.{bytes};
ghost use Rattle.memory.specs.Access.{Wrote, WroteBoth};
ghost use Rattle.desc.specs.Layout.{desc_addr, used_idx_addr};
ghost use Rattle.desc.specs.Desc.{has_next, is_write_only, is_indirect, desc_of, desc_bytes, used_of, used_bytes, desc_at, length-desc_bytes, length-used_bytes};

use wire::Stored;

// Sizes in bytes: an element, the fields before the ring, and all fields that are no elements.
pub const VIRTQ_DESCRIPTOR_SIZE: u32 = 16;

pub const VIRTQ_AVAIL_ELEMENT_SIZE: u32 = 2;

pub const VIRTQ_AVAIL_RING_HEADER_SIZE: u32 = 4;

pub const VIRTQ_AVAIL_RING_META_SIZE: u32 = 6;

pub const VIRTQ_USED_ELEMENT_SIZE: u32 = 8;

pub const VIRTQ_USED_RING_HEADER_SIZE: u32 = 4;

pub const VIRTQ_USED_RING_META_SIZE: u32 = 6;

// What the addresses of the three areas are multiples of.
pub const VIRTQ_DESC_TABLE_ALIGN: u64 = 16;

pub const VIRTQ_AVAIL_RING_ALIGN: u64 = 2;

pub const VIRTQ_USED_RING_ALIGN: u64 = 4;

// The flags of a descriptor, and the one of the used ring by which a device asks for no notifications. Numbers and no enum: a guest writes any
// 16 bits, and `desc_of` keeps them.
pub const VRING_DESC_F_NEXT: u16 = 1;

pub const VRING_DESC_F_WRITE: u16 = 2;

pub const VRING_DESC_F_INDIRECT: u16 = 4;

pub const VRING_USED_F_NO_NOTIFY: u16 = 1;

#[derive(Clone, Copy)]
pub struct Descriptor {
    pub addr: u64,
    pub len: u32,
    pub flags: u16,
    pub next: u16,
}

impl Descriptor {
    pub fn new(addr: u64, len: u32, flags: u16, next: u16) -> Descriptor
        ensures { (result.addr ≡ addr) × (result.len ≡ len) × (result.flags ≡ flags) × (result.next ≡ next) }
    {
        Descriptor {
            addr,
            len,
            flags,
            next,
        }
    }

    // Three questions of one line each, which callers know by name: one that takes a mask would be no plainer.
    // The chain goes on at `next`.
    pub fn has_next(self) -> bool
        ensures { result ≡ has_next self }
    {
        self.flags & VRING_DESC_F_NEXT != 0
    }

    // The device writes this element; without the flag it reads it.
    pub fn is_write_only(self) -> bool
        ensures { result ≡ is_write_only self }
    {
        self.flags & VRING_DESC_F_WRITE != 0
    }

    // The element is a table of descriptors.
    pub fn refers_to_indirect_table(self) -> bool
        ensures { result ≡ is_indirect self }
    {
        self.flags & VRING_DESC_F_INDIRECT != 0
    }

    // The descriptor's 16 bytes.
    pub fn to_bytes(self) -> [u8; 16]
        ensures { result ≡ desc_bytes self }
    {
        let mut bytes = [0u8; 16];
        self.put(&mut bytes, 0);
        bytes
    }
}

impl Stored for Descriptor {
    const SIZE: u32 = VIRTQ_DESCRIPTOR_SIZE;

    ghost SIZE = { 16 };

    ghost of_bytes = { desc_of };

    ghost to_bytes = { desc_bytes };

    fn get(s: &[u8], i: usize) -> Descriptor {
        Descriptor {
            addr: u64::get(s, i),
            len: u32::get(s, i + 8),
            flags: u16::get(s, i + 12),
            next: u16::get(s, i + 14),
        }
    }

    fn put(self, s: &mut [u8], i: usize) {
        self.addr.put(s, i);
        self.len.put(s, i + 8);
        self.flags.put(s, i + 12);
        self.next.put(s, i + 14);
    }

    ghost sized = { Prim.search rules };

    ghost length_is = { length-desc_bytes };
}

// A used element: the head of the chain that the device gives back, and how many bytes it wrote.
#[derive(Clone, Copy)]
pub struct UsedElem {
    pub id: u32,
    pub len: u32,
}

impl Stored for UsedElem {
    const SIZE: u32 = VIRTQ_USED_ELEMENT_SIZE;

    ghost SIZE = { 8 };

    ghost of_bytes = { used_of };

    ghost to_bytes = { λ e. used_bytes e.id e.len };

    fn get(s: &[u8], i: usize) -> UsedElem {
        UsedElem {
            id: u32::get(s, i),
            len: u32::get(s, i + 4),
        }
    }

    fn put(self, s: &mut [u8], i: usize) {
        self.id.put(s, i);
        self.len.put(s, i + 4);
    }

    ghost sized = { Prim.search rules };

    ghost length_is = { λ e. length-used_bytes e.id e.len };
}

// Descriptor `index` of the table at guest address `table`: its 16 bytes are read once.
#[tactic(auto, unfolding(crate::specs::Desc::desc_at))]
pub fn read_descriptor(regions: &[u64], mem: &[u8], table: u64, index: u16) -> Option<Descriptor>
    ensures { result ≡ desc_at regions.now mem.now (desc_addr table index) }
{
    memory::read(regions, mem, table, VIRTQ_DESCRIPTOR_SIZE * (index as u32))
}

// What a driver does: descriptor `index` of the table at guest address `table`, stored whole or not at all.
// A Bool, as writing::write's.
pub fn write_descriptor(
    regions: &[u64],
    mem: &mut [u8],
    table: u64,
    index: u16,
    d: Descriptor,
) -> bool
    ensures { Wrote regions.now mem.old (desc_addr table index) (desc_bytes d) result mem.new }
{
    writing::write(
        regions,
        mem,
        table,
        VIRTQ_DESCRIPTOR_SIZE * (index as u32),
        d,
    )
}

// A used element, id and length, at off in the used ring at guest address `ring`, and then the ring's idx: a driver that sees the new
// idx finds the element in its place. Both are written, or nothing is.
// id and len apart: its one caller has them so. A Bool, as writing::write's.
pub fn publish_used(
    regions: &[u64],
    mem: &mut [u8],
    ring: u64,
    off: u32,
    id: u32,
    len: u32,
    idx: u16,
) -> bool
    ensures { WroteBoth regions.now mem.old (ring + off) (used_bytes id len) (used_idx_addr ring) (bytes 2 idx) result mem.new }
{
    writing::write_both(regions, mem, ring, off, UsedElem { id, len }, 2, idx)
}

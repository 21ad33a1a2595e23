// SPDX-License-Identifier: Apache-2.0 AND BSD-3-Clause
// Sizes that are powers of two, and places in a ring by them.
ghost use Rattle.std.specs.Prelude.{◌≡◌, ◌+◌, ◌*◌, ◌%◌};
ghost use Rattle.queue.specs.Size.{good_size};

// Whether n can be the size of a queue whose largest size is max.
#[tactic(auto, using(crate::specs::Size::good_one_bit, crate::specs::Size::good_other_bits))]
pub fn good_size(n: u16, max: u16) -> bool
    ensures { result ≡ good_size n max }
{
    n.is_power_of_two() && n <= max
}

// The place of an entry by its number: a mask where the size is a power of two, which is every size that a setter takes. A size of 0
// has no places: nobody asks for one, and the mask keeps the number.
#[tactic(auto, using(crate::specs::Size::place_mask))]
pub fn place(index: u16, size: u16) -> u16
    ensures { result ≡ index % size }
{
    let mask = size.wrapping_sub(1);
    if size & mask == 0 {
        return index & mask;
    }
    index % size
}

// Where the entry at a place stands, from the start of its ring. Behind the last, at the place `size`, stands the field by which the ring's
// writer asks for notifications. Two functions and no parameter for the ring: each is that ring's own two constants.
pub fn avail_offset(place: u16) -> u32
    ensures { result ≡ 4 + 2 * place }
{
    desc::VIRTQ_AVAIL_RING_HEADER_SIZE + desc::VIRTQ_AVAIL_ELEMENT_SIZE * u32::from(place)
}

pub fn used_offset(place: u16) -> u32
    ensures { result ≡ 4 + 8 * place }
{
    desc::VIRTQ_USED_RING_HEADER_SIZE + desc::VIRTQ_USED_ELEMENT_SIZE * u32::from(place)
}

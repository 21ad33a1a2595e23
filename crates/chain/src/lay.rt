// SPDX-License-Identifier: Apache-2.0 AND BSD-3-Clause
// Laying a chain into guest memory, what a driver does: every test comes before the first write, so that a refusal changes nothing.
ghost use Rattle.std.specs.Prelude.{◌≡◌, ◌<◌, ◌^◌, length, leb, sum, SomeIff, MatchOption};
ghost use Rattle.chain.specs.Sequence.{sum_max, total};
ghost use Rattle.chain.specs.Links.{listed, link_flags, link, links, every, counted, below, fresh, direct, can_store, lay_of, stored, LaidDown};
ghost use Rattle.chain.specs.Laying.{SameLength};

use desc::Descriptor;

// The first reason against laying a chain, in this order.
#[derive(Clone, Copy, Debug, PartialEq, Eq)]
pub enum LayError {
    // No descriptors, more than the table has, or lists of unequal lengths.
    BadCount,
    // A place beyond the table.
    BadPlace,
    // A place named twice.
    SamePlace,
    // A descriptor that is a table.
    Indirect,
    // The sum of lengths passes 2^32 - 1.
    TooLong,
    // A place that can't be written.
    Unmapped,
}

fn link_flags(f: u16, more: bool) -> u16
    ensures { result ≡ link_flags more f }
{
    if more { f / 2 * 2 + 1 } else { f / 2 * 2 }
}

// A list of descriptors as a caller gives it: of each its place in the table, its addr, its len and its flags.
#[derive(Clone, Copy)]
struct List<'a> {
    places: &'a [u16],
    addrs: &'a [u64],
    lens: &'a [u32],
    flags: &'a [u16],
    ghost same: { SameLength (listed places.now addrs.now lens.now flags.now) },
}

// ---- the tests

fn all_below(queue_size: u16, places: &[u16]) -> bool
    ensures { result ≡ every (below queue_size places.now) (length places.now) 0 }
{
    places.iter().all(|place| *place < queue_size)
}

// Whether no place is named twice.
fn all_fresh(places: &[u16]) -> bool
    ensures { result ≡ every (fresh places.now) (length places.now) 0 }
{
    for (k, place) in places.iter().enumerate() {
        if places[..k].contains(place) {
            return false;
        }
    }
    true
}

// The sum of lengths, where it has 32 bits.
fn total(lens: &[u32]) -> Option<u32>
    ensures { SomeIff result (sum lens.now < 2 ^ 32) (sum lens.now) }
{
    let mut sum: u32 = 0;
    for len in lens {
        sum = sum.checked_add(*len)?;
    }
    Some(sum)
}

fn can_store(regions: &[u64], size: usize, desc_table: u64, places: &[u16]) -> bool
    ensures { result ≡ every (can_store regions.now size desc_table places.now) (length places.now) 0 }
{
    places.iter().all(|place| {
        memory::can_write(
            regions,
            size,
            desc_table,
            desc::VIRTQ_DESCRIPTOR_SIZE * (*place as u32),
            desc::VIRTQ_DESCRIPTOR_SIZE,
        )
    })
}

impl<'a> List<'a> {
    ghost use Rattle.chain.specs.ListOf.{list_of};

    // None where there are not as many of each.
    fn new(
        places: &'a [u16],
        addrs: &'a [u64],
        lens: &'a [u32],
        flags: &'a [u16],
    ) -> Option<List<'a>>
        ensures { MatchOption result (¬ SameLength (listed places.now addrs.now lens.now flags.now)) (λ l. list_of l ≡ listed places.now addrs.now lens.now flags.now) }
    {
        let n = places.len();
        if addrs.len() == n && lens.len() == n && flags.len() == n {
            Some(List {
                places,
                addrs,
                lens,
                flags,
            })
        } else {
            None
        }
    }

    // The k-th descriptor as it is stored: with NEXT and the next place if another follows, without if not.
    #[tactic(auto, using(crate::specs::Laying::link_last), unfolding(crate::specs::Links::link))]
    fn link(self, k: usize) -> Descriptor
        requires { k < length self.places.now }
        ensures { result ≡ link (list_of self.entry) k }
    {
        let next = self.places.get(k + 1).copied();
        Descriptor {
            addr: self.addrs[k],
            len: self.lens[k],
            flags: link_flags(self.flags[k], next.is_some()),
            next: next.unwrap_or(0),
        }
    }

    #[tactic(auto, unfolding(crate::specs::Links::counted))]
    fn counted(self, queue_size: u16) -> bool
        ensures { result ≡ counted queue_size (list_of self.entry) }
    {
        !self.places.is_empty() && self.places.len() <= queue_size as usize
    }

    fn all_direct(self) -> bool
        ensures { result ≡ every (direct (list_of self.entry)) (length self.entry.places.now) 0 }
    {
        // By index: link looks at the place after its own too.
        for k in 0..self.places.len() {
            if self.link(k).refers_to_indirect_table() {
                return false;
            }
        }
        true
    }

    fn sum_fits(self) -> bool
        ensures { result ≡ leb (total (links (list_of self.entry))) sum_max }
    {
        total(self.lens).is_some()
    }

    // Every test there is, in the order of the errors.
    #[tactic(auto, unfolding(crate::specs::Links::lay_of))]
    fn check(
        self,
        regions: &[u64],
        size: usize,
        desc_table: u64,
        queue_size: u16,
    ) -> Result<(), LayError>
        ensures { result ≡ lay_of regions.now size desc_table queue_size (list_of self.entry) }
    {
        if !self.counted(queue_size) {
            return Err(LayError::BadCount);
        }
        if !all_below(queue_size, self.places) {
            return Err(LayError::BadPlace);
        }
        if !all_fresh(self.places) {
            return Err(LayError::SamePlace);
        }
        if !self.all_direct() {
            return Err(LayError::Indirect);
        }
        if !self.sum_fits() {
            return Err(LayError::TooLong);
        }
        if !can_store(regions, size, desc_table, self.places) {
            return Err(LayError::Unmapped);
        }
        Ok(())
    }

    fn store(self, regions: &[u64], mem: &mut [u8], desc_table: u64)
        ensures { mem.new ≡ stored regions.now desc_table (list_of self.entry) (length self.entry.places.now) 0 mem.old }
    {
        // By index: link looks at the place after its own too.
        for k in 0..self.places.len() {
            // check has seen to it that each can be stored.
            desc::write_descriptor(regions, mem, desc_table, self.places[k], self.link(k));
        }
    }
}

// Lays a list of descriptors into the table of queue_size descriptors at desc_table, each at its place, linked by NEXT; the flags
// are as given but for NEXT. From the first place on the walks then yield the list. The list is four slices, since a caller may lend
// them of unequal lengths and is then refused (lay_demo prints it); inside they are one List.
#[tactic(auto, using(crate::specs::Laying::lay_uneven, crate::specs::Laying::lay_refused, crate::specs::Laying::lay_done))]
pub fn lay_chain(
    regions: &[u64],
    mem: &mut [u8],
    desc_table: u64,
    queue_size: u16,
    places: &[u16],
    addrs: &[u64],
    lens: &[u32],
    flags: &[u16],
) -> Result<(), LayError>
    ensures { LaidDown regions.now mem.old desc_table queue_size (listed places.now addrs.now lens.now flags.now) result mem.new }
{
    let Some(list) = List::new(places, addrs, lens, flags) else {
        return Err(LayError::BadCount);
    };
    list.check(regions, mem.len(), desc_table, queue_size)?;
    list.store(regions, mem, desc_table);
    Ok(())
}

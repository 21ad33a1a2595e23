// SPDX-License-Identifier: Apache-2.0 AND BSD-3-Clause
// Guest memory: one lent slice, and the lent table of regions that maps guest addresses to it. Only this crate and `writing`, which has
// the writes, touch it. Table and slice stay two parameters everywhere: a caller of the C interface lends them as two, the slice to read or to
// write, so that a struct of both would be two structs.
//
// An access at addr + off works if all its bytes are in memory, also where they lie in several regions; otherwise it fails as a
// whole and nothing is written. There are three ways, from the fast to the slow: the first row holds all the bytes; a later row
// does; the bytes are looked for one by one. What a queue does in every round tries the first row in place, wherever it stands, and
// leaves everything else to a function that is called: so the hints at `read` and at what it calls.
#![tactic(auto)]

ghost use Rattle.std.specs.Prelude.{◌≡◌, true, ◌+◌, ◌≤◌, length};
ghost use Rattle.regions.specs.Table.{spot};
ghost use Rattle.regions.specs.Spots.{covered, spots};
ghost use Rattle.memory.specs.Cells.{cell, fetch};
ghost use Rattle.memory.specs.Access.{readable, writable, read_of};

use wire::Stored;

// Whether each of the n bytes at addr + off is in memory.
#[tactic(auto, using(crate::specs::Access::seated_covered))]
fn in_memory(regions: &[u64], size: usize, addr: u64, off: u32, n: u32) -> bool
    ensures { result ≡ covered regions.now size (addr + off) n }
{
    regions::locate(regions, size, addr, off, n).is_some() || in_rows(regions, size, addr, off, n)
}

#[tactic(auto, using(regions::specs::Spots::none_covered, regions::specs::Spots::past_covered))]
fn in_rows(regions: &[u64], size: usize, addr: u64, off: u32, n: u32) -> bool
    ensures { result ≡ covered regions.now size (addr + off) n }
{
    if n == 0 {
        return true;
    }
    match addr.checked_add(off as u64) {
        Some(a) => regions::covers(regions, size, a, n as u64),
        None => false,
    }
}

// Whether n bytes at addr + off can be read, and whether they can be written: two questions with one answer, and theorems that tell them
// apart (`readable`, `writable`).
#[tactic(auto, unfolding(crate::specs::Access::readable))]
pub fn can_read(regions: &[u64], size: usize, addr: u64, off: u32, n: u32) -> bool
    ensures { result ≡ readable regions.now size (addr + off) n }
{
    in_memory(regions, size, addr, off, n)
}

#[tactic(auto, unfolding(crate::specs::Access::writable))]
pub fn can_write(regions: &[u64], size: usize, addr: u64, off: u32, n: u32) -> bool
    ensures { result ≡ writable regions.now size (addr + off) n }
{
    in_memory(regions, size, addr, off, n)
}

// ---- byte by byte: for an access that no row holds whole

// The byte at guest address a; 0 where there is none.
#[tactic(auto, using(regions::specs::Table::spot_found))]
fn byte_at(regions: &[u64], mem: &[u8], a: u64) -> u8
    ensures { result ≡ cell mem.now (spot regions.now (length mem.now) a) }
{
    match regions::find(regions, mem.len(), a) {
        Some(run) => mem[run.at],
        None => 0,
    }
}

// Fills out with the bytes from guest address a on, which are all in memory.
fn gather(regions: &[u64], mem: &[u8], a: u64, out: &mut [u8])
    requires { covered regions.now (length mem.now) a (length out.old) ≡ true }
    ensures { out.new ≡ fetch mem.now (spots regions.now (length mem.now) a (length out.old)) }
{
    for (k, b) in out.iter_mut().enumerate() {
        *b = byte_at(regions, mem, a + k as u64);
    }
}

fn read_across<T: Stored>(regions: &[u64], mem: &[u8], addr: u64, off: u32) -> Option<T>
    ensures { result ≡ read_of T.SIZE T.of_bytes regions.now mem.now (addr + off) }
{
    if !can_read(regions, mem.len(), addr, off, T::SIZE) {
        return None;
    }
    let mut buffer = [0u8; 16];
    let out = &mut buffer[..T::SIZE as usize];
    gather(regions, mem, addr + off as u64, out);
    Some(T::get(out, 0))
}

// What `read` leaves: the same, over all rows.
#[inline(never)]
fn read_far<T: Stored>(regions: &[u64], mem: &[u8], addr: u64, off: u32) -> Option<T>
    ensures { result ≡ read_of T.SIZE T.of_bytes regions.now mem.now (addr + off) }
{
    match regions::locate(regions, mem.len(), addr, off, T::SIZE) {
        Some(i) => Some(T::get(mem, i)),
        None => read_across(regions, mem, addr, off),
    }
}

// The value at addr + off, if all its bytes are in memory.
#[inline(always)]
pub fn read<T: Stored>(regions: &[u64], mem: &[u8], addr: u64, off: u32) -> Option<T>
    ensures { result ≡ read_of T.SIZE T.of_bytes regions.now mem.now (addr + off) }
{
    match regions::locate_first(regions, mem.len(), addr, off, T::SIZE) {
        Some(i) => Some(T::get(mem, i)),
        None => read_far(regions, mem, addr, off),
    }
}

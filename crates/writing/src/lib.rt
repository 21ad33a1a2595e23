// SPDX-License-Identifier: Apache-2.0 AND BSD-3-Clause
// Writes to guest memory: as `memory` has reads, by the same three ways. A write whose bytes are not all in memory stores nothing.
#![tactic(auto)]

ghost use Rattle.std.specs.Prelude.{◌≡◌, true, ◌+◌, ◌≤◌, length};
ghost use Rattle.regions.specs.Table.{spot};
ghost use Rattle.regions.specs.Spots.{covered, spots};
ghost use Rattle.memory.specs.Cells.{store1, store};
ghost use Rattle.memory.specs.Access.{Wrote, WroteBoth};

use wire::Stored;

// Stores a byte at guest address a, if there is one.
#[tactic(auto, using(regions::specs::Table::spot_found))]
fn store_byte(regions: &[u64], mem: &mut [u8], a: u64, b: u8)
    ensures { mem.new ≡ store1 mem.old (spot regions.now (length mem.old) a) b }
{
    if let Some(run) = regions::find(regions, mem.len(), a) {
        mem[run.at] = b;
    }
}

// Stores src from guest address a on, where all its bytes are in memory.
fn scatter(regions: &[u64], mem: &mut [u8], a: u64, src: &[u8])
    requires { covered regions.now (length mem.old) a (length src.now) ≡ true }
    ensures { mem.new ≡ store mem.old (spots regions.now (length mem.old) a (length src.now)) src.now }
{
    for (k, b) in src.iter().enumerate() {
        store_byte(regions, mem, a + k as u64, *b);
    }
}

// Nothing is stored unless every byte has a place.
fn write_across<T: Stored>(regions: &[u64], mem: &mut [u8], addr: u64, off: u32, x: T) -> bool
    ensures { Wrote regions.now mem.old (addr + off) (T.to_bytes x) result mem.new }
{
    if !memory::can_write(regions, mem.len(), addr, off, T::SIZE) {
        return false;
    }
    let mut buffer = [0u8; 16];
    let src = &mut buffer[..T::SIZE as usize];
    x.put(src, 0);
    scatter(regions, mem, addr + off as u64, src);
    true
}

// Stores x at addr + off, whole or not at all. True where it is stored: there is one reason against it and nothing to hand back, so an
// Option or a Result would say no more, and `Wrote`, `WroteBoth` and their laws (T1.4) speak of this Bool.
pub fn write<T: Stored>(regions: &[u64], mem: &mut [u8], addr: u64, off: u32, x: T) -> bool
    ensures { Wrote regions.now mem.old (addr + off) (T.to_bytes x) result mem.new }
{
    match regions::locate(regions, mem.len(), addr, off, T::SIZE) {
        Some(i) => {
            x.put(mem, i);
            true
        }
        None => write_across(regions, mem, addr, off, x),
    }
}

// Whether the second can be written is asked before the first is: a refusal leaves no trace.
#[inline(never)]
fn write_both_far<T: Stored, U: Stored>(
    regions: &[u64],
    mem: &mut [u8],
    addr: u64,
    off: u32,
    x: T,
    then_off: u32,
    y: U,
) -> bool
    ensures { WroteBoth regions.now mem.old (addr + off) (T.to_bytes x) (addr + then_off) (U.to_bytes y) result mem.new }
{
    if !memory::can_write(regions, mem.len(), addr, then_off, U::SIZE) {
        return false;
    }
    if !write(regions, mem, addr, off, x) {
        return false;
    }
    write(regions, mem, addr, then_off, y)
}

// Stores x at addr + off and then y at addr + then_off, both or neither: an entry of a ring, and its idx.
#[inline(always)]
pub fn write_both<T: Stored, U: Stored>(
    regions: &[u64],
    mem: &mut [u8],
    addr: u64,
    off: u32,
    x: T,
    then_off: u32,
    y: U,
) -> bool
    ensures { WroteBoth regions.now mem.old (addr + off) (T.to_bytes x) (addr + then_off) (U.to_bytes y) result mem.new }
{
    match regions::locate_first(regions, mem.len(), addr, off, T::SIZE) {
        Some(i) => match regions::locate_first(regions, mem.len(), addr, then_off, U::SIZE) {
            Some(j) => {
                x.put(mem, i);
                y.put(mem, j);
                true
            }
            None => write_both_far(regions, mem, addr, off, x, then_off, y),
        },
        None => write_both_far(regions, mem, addr, off, x, then_off, y),
    }
}

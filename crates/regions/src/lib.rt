// SPDX-License-Identifier: Apache-2.0 AND BSD-3-Clause
// The region table: which guest addresses there are, and where in the slice of guest memory each one lies.
//
// The table is lent and flat, as the C interface has it, three words a region: guest base, length, offset in the slice. At most
// eight rows count. A guest address lies where the first row that holds it puts it. Every function is total: a row that runs past
// the slice or past 2^64 has no bytes there, and an incomplete row at the end counts for nothing.
#![tactic(auto)]

ghost use Rattle.std.specs.Prelude.{◌≡◌, ◌+◌, ◌≤◌, ◌^◌};
ghost use Rattle.std.specs.Iterator.{YieldsFirst, item_count};
ghost use Rattle.regions.specs.Table.{extent, rows, rows_left, stretch_r, stretch_of};
ghost use Rattle.regions.specs.Spots.{InRow, Sided, Seated, covered};

// How many words of the table a region takes, and how many regions count.
pub const REGION_WORDS: usize = 3;

pub const REGIONS: usize = 8;

// What a row has from a guest address on: where in the slice it lies, and how many bytes there are to the row's end.
#[derive(Clone, Copy)]
pub struct Run {
    pub at: usize,
    pub len: u64,
}

// A row of the table: the guest addresses from base on, len of them, lie in the slice from offset on.
#[derive(Clone, Copy)]
pub struct Region {
    pub base: u64,
    pub len: u64,
    pub offset: u64,
}

// What one row says of the n bytes from a guest address on.
#[derive(Clone, Copy)]
pub enum Side {
    // it holds them all, from this place on
    All(usize),
    // it holds none of them
    Away,
    // it may hold some
    Split,
}

impl Region {
    // How many bytes a row really has: as many as its length says, as the slice has behind its offset, and as lie below 2^64.
    #[tactic(auto, unfolding(crate::specs::Table::extent))]
    fn extent(self, size: usize) -> u64
        ensures { result ≡ extent self size }
    {
        let room = (size as u64).saturating_sub(self.offset);
        let below = (u64::MAX - self.base).saturating_add(1);
        self.len.min(room).min(below)
    }

    #[tactic(auto, unfolding(crate::specs::Table::extent, crate::specs::Table::stretch_r))]
    fn stretch(self, size: usize, a: u64) -> Option<Run>
        ensures { result ≡ stretch_r self size a }
    {
        let d = a.checked_sub(self.base)?;
        let have = self.extent(size);
        if have <= d {
            return None;
        }
        Some(Run {
            at: (self.offset + d) as usize,
            len: have - d,
        })
    }

    // By way of stretch it would be shorter; but in the round of bench/ over eight regions locate then takes a third more instructions.
    #[tactic(auto, using(crate::specs::Spots::sided_all, crate::specs::Spots::sided_away, crate::specs::Spots::all_in), unfolding(crate::specs::Table::extent))]
    fn side(self, size: usize, a: u64, n: u64) -> Side
        requires { a + n ≤ 2 ^ 64 }
        ensures { Sided self size a n result }
    {
        let Some(room) = (size as u64).checked_sub(self.offset) else {
            return Side::Away;
        };
        let held = self.len.min(room);
        let Some(d) = a.checked_sub(self.base) else {
            return if n <= self.base - a {
                Side::Away
            } else {
                Side::Split
            };
        };
        if held <= d {
            return Side::Away;
        }
        if held - d < n {
            return Side::Split;
        }
        Side::All((self.offset + d) as usize)
    }

    // Where an access of n bytes at addr + off lies, if this row holds all of it; None says nothing. There is no loop here and no further
    // call: so it is built into the accesses, which try the table's first row with it before they call anything. (By way of stretch it
    // would be shorter, and take 17.7 instructions for 13.2.)
    #[tactic(auto, using(crate::specs::Spots::in_row), unfolding(crate::specs::Table::extent))]
    pub fn seat(self, size: usize, addr: u64, off: u32, n: u32) -> Option<usize>
        ensures { InRow self size (addr + off) n result }
    {
        let span = off as u64 + n as u64;
        addr.checked_add(span)?;
        let d = (addr + off as u64).checked_sub(self.base)?;
        let end = d + n as u64;
        let room = (size as u64).checked_sub(self.offset)?;
        if self.len < end {
            return None;
        }
        if room < end {
            return None;
        }
        Some((self.offset + d) as usize)
    }
}

// The rows of a table, from the first to the eighth: `chunks_exact(3).take(8).map(..)` with a name, since a function can't answer
// `impl Iterator`.
#[derive(Drop)]
pub struct Rows<'a> {
    words: &'a [u64],
    count: usize,
}

impl<'a> Rows<'a> {
    pub fn of(regions: &'a [u64]) -> Rows<'a>
        ensures { rows_left result ≡ rows REGIONS regions.now }
    {
        Rows {
            words: regions,
            count: REGIONS,
        }
    }
}

impl<'a> Iterator for Rows<'a> {
    type Item = Region;

    ghost next_gives = { YieldsFirst rows_left };

    ghost remaining = { item_count rows_left };

    fn next(&mut self) -> Option<Region> {
        self.count = self.count.checked_sub(1)?;
        let [base, len, offset, more @ ..] = self.words else {
            return None;
        };
        self.words = more;
        Some(Region {
            base: *base,
            len: *len,
            offset: *offset,
        })
    }
}

// What the first row that holds guest address a has from there on.
pub fn find(regions: &[u64], size: usize, a: u64) -> Option<Run>
    ensures { result ≡ stretch_of regions.now size a }
{
    Rows::of(regions).find_map(|row| row.stretch(size, a))
}

// The fast way: the first row that holds any of the n bytes, if it holds them all.
fn find_run(regions: &[u64], size: usize, a: u64, n: u64) -> Option<usize>
    requires { a + n ≤ 2 ^ 64 }
    ensures { Seated regions.now size a n result }
{
    for row in Rows::of(regions) {
        match row.side(size, a, n) {
            Side::All(i) => {
                return Some(i);
            }
            Side::Away => {}
            Side::Split => {
                return None;
            }
        }
    }
    None
}

// Where an access of n bytes at addr + off lies, if in one run. None says nothing: then the bytes are looked for one by one. (So
// the one test against 2^64 may refuse the last byte of all: the slow way finds it.)
// addr and off stay two, since the one test of their sum against 2^64 is made here; and size is all of the slice that this crate needs.
pub fn locate(regions: &[u64], size: usize, addr: u64, off: u32, n: u32) -> Option<usize>
    ensures { Seated regions.now size (addr + off) n result }
{
    let reach = off as u64 + n as u64;
    addr.checked_add(reach)?;
    find_run(regions, size, addr + off as u64, n as u64)
}

// As locate, but the table's first row alone is tried.
pub fn locate_first(regions: &[u64], size: usize, addr: u64, off: u32, n: u32) -> Option<usize>
    ensures { Seated regions.now size (addr + off) n result }
{
    Rows::of(regions).next()?.seat(size, addr, off, n)
}

// Whether each of the n bytes from guest address addr on has a place: row by row, in at most eight steps, whatever n is.
pub fn covers(regions: &[u64], size: usize, addr: u64, n: u64) -> bool
    ensures { result ≡ covered regions.now size addr n }
{
    let mut a = addr;
    let mut left = n;
    if left == 0 {
        return true;
    }
    for _ in 0..REGIONS {
        let Some(run) = find(regions, size, a) else {
            return false;
        };
        if left <= run.len {
            return true;
        }
        let Some(next) = a.checked_add(run.len) else {
            return false;
        };
        a = next;
        left -= run.len;
    }
    false
}

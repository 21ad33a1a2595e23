// SPDX-License-Identifier: Apache-2.0 AND BSD-3-Clause
// Adding a region to a table in lent memory. What a table means is in the crate regions; no access needs this one.
#![tactic(auto)]

ghost use Rattle.std.specs.Prelude.{◌≡◌, ◌+◌, ◌≤◌, [], ◌∷◌, length};
ghost use Rattle.std.proofs.lemmas.List.Edits.{sets};
ghost use Rattle.regions.specs.Table.{rows};
ghost use Rattle.adding.specs.Grow.{shares_r, shares_in, free_of, fault_of, Grown};

use regions::{REGION_WORDS, Region, Rows};

// Why a region was not added, in the order of the tests.
#[derive(Clone, Copy, Debug, PartialEq, Eq)]
pub enum AddError {
    // eight regions are there, or the table has no room for one more
    Full,
    // its length is 0
    Empty,
    // it passes 2^64
    PastTop,
    // it runs past the slice
    PastSlice,
    // it shares a guest address with another
    Overlap,
}

// base and len and no Region, as shares_r has it: what is shared are guest addresses, wherever they lie in the slice.
fn shares(row: Region, base: u64, len: u64) -> bool
    ensures { result ≡ shares_r row base len }
{
    if base < row.base {
        row.len != 0 && row.base - base < len
    } else {
        len != 0 && base - row.base < row.len
    }
}

// Whether a row shares one of the len guest addresses from base on.
fn shares_any(regions: &[u64], base: u64, len: u64) -> bool
    ensures { result ≡ shares_in (rows 8 regions.now) base len }
{
    Rows::of(regions).any(|row| shares(row, base, len))
}

// The word at which the first free row begins.
fn free_row(regions: &[u64]) -> Option<usize>
    ensures { result ≡ free_of regions.now }
{
    let k = Rows::of(regions).position(|row| row.len == 0)?;
    Some(REGION_WORDS * k)
}

// Refuses a region that may not be added to the table.
#[tactic(auto, unfolding(crate::specs::Grow::fault_of))]
fn try_region(regions: &[u64], size: usize, region: Region) -> Result<(), AddError>
    ensures { result ≡ fault_of regions.now size region.base region.len region.offset }
{
    if region.len == 0 {
        return Err(AddError::Empty);
    }
    if region.base.checked_add(region.len - 1).is_none() {
        return Err(AddError::PastTop);
    }
    let end = region.offset.checked_add(region.len);
    if !end.is_some_and(|end| end <= size as u64) {
        return Err(AddError::PastSlice);
    }
    if shares_any(regions, region.base, region.len) {
        return Err(AddError::Overlap);
    }
    Ok(())
}

// Word by word: an array of three to copy from would name them all as well.
fn put_row(regions: &mut [u64], at: usize, row: Region)
    requires { at + 3 ≤ length regions.old }
    ensures { regions.new ≡ sets regions.old at (row.base ∷ row.len ∷ row.offset ∷ []) }
{
    regions[at] = row.base;
    regions[at + 1] = row.len;
    regions[at + 2] = row.offset;
}

// Adds a region to the table of a slice of size bytes. It goes into the first row of length 0; a refusal changes nothing.
pub fn add_region(regions: &mut [u64], size: usize, region: Region) -> Result<(), AddError>
    ensures { Grown regions.old size region.base region.len region.offset result regions.new }
{
    let Some(at) = free_row(regions) else {
        return Err(AddError::Full);
    };
    try_region(regions, size, region)?;
    put_row(regions, at, region);
    Ok(())
}

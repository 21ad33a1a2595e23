// SPDX-License-Identifier: Apache-2.0 AND BSD-3-Clause
// The eight numbers, in decimal, with blanks between them.

#[derive(Clone, Copy)]
pub struct Numbers {
    pub rounds: u64,
    // The event index is on.
    pub event: bool,
    // How many regions share the image.
    pub regions: u64,
    pub size: u16,
    pub desc: u32,
    pub avail: u32,
    pub used: u32,
    // How many bytes the image has.
    pub len: usize,
}

// The largest image, and the largest address of an area.
const MOST: u64 = 65536;

// Exactly eight numbers, each in its bounds.
pub fn parse(text: &[u8]) -> Option<Numbers> {
    let mut numbers = text
        .split(|b| !b.is_ascii_digit())
        .filter(|word| !word.is_empty())
        .map(value);
    let rounds = numbers.next()?;
    let event = numbers.next().filter(|x| *x <= 1)? == 1;
    let regions = numbers.next().filter(|x| (1..=8).contains(x))?;
    let size = u16::try_from(numbers.next()?).ok()?;
    let desc = place(numbers.next()?)?;
    let avail = place(numbers.next()?)?;
    let used = place(numbers.next()?)?;
    let len = numbers.next().filter(|x| *x <= MOST)? as usize;
    if numbers.next().is_some() {
        return None;
    }
    Some(Numbers {
        rounds,
        event,
        regions,
        size,
        desc,
        avail,
        used,
        len,
    })
}

fn place(number: u64) -> Option<u32> {
    u32::try_from(number).ok().filter(|x| u64::from(*x) <= MOST)
}

// A number that grows past 10^18 stays what it is: no field is that large.
fn value(digits: &[u8]) -> u64 {
    digits.iter().fold(0u64, |n, b| {
        if n < 1000000000000000000 {
            n.wrapping_mul(10)
                .wrapping_add(u64::from(b.wrapping_sub(b'0')))
        } else {
            n
        }
    })
}

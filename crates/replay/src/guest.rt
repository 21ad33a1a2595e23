// SPDX-License-Identifier: Apache-2.0 AND BSD-3-Clause
// The image commands: what the guest does.
ghost use Rattle.std.specs.Prelude.{◌≤◌, length};

use adding::AddError;
use desc::Descriptor;
use lines::checks::Ready;
use lines::reading::Numbers;
use lines::state::{Answer, Done, State};
use regions::Region;
use script::commands::Command;

const TABLE_WORDS: usize = regions::REGIONS * regions::REGION_WORDS;

// `memory`, `region`, and else `sum`. The image is the first `size` bytes of the space.
pub fn on_whole(ready: &Ready, size: usize, st: State, space: &mut [u8], table: &mut [u64]) -> Done
    requires { size ≤ length space.old }
{
    match ready.command {
        Command::Memory => memory(ready.numbers.get(0), st, space, table),
        Command::Region => region(ready.numbers, size, st, table),
        _ => st.answers(Answer::Sum(script::crc::crc32(&space[..size]))),
    }
}

// The space is what an image can have at most: a larger one is refused.
fn memory(n: u64, st: State, space: &mut [u8], table: &mut [u64]) -> Done {
    let all = space.len() as u64;
    if all < n {
        return st.answers(Answer::Refused);
    }
    let size = n as usize;
    space[..size].fill(0);
    only_region(table, n);
    State::of_image(size).answers(Answer::Number(n))
}

// One region, from guest address 0 up to len. One of length 0 is none.
// (By hand: add_region would refuse a length of 0.)
fn only_region(table: &mut [u64], len: u64) {
    table.fill(0);
    if let Some(word) = table.get_mut(1) {
        *word = len;
    }
}

fn region(numbers: &Numbers, size: usize, st: State, table: &mut [u64]) -> Done {
    let region = Region {
        base: numbers.get(0),
        len: numbers.get(1),
        offset: numbers.get(2),
    };
    let added = if st.plain {
        first_region(table, size, region)
    } else {
        adding::add_region(table, size, region)
    };
    match added {
        Ok(()) => st.mapped().answers(Answer::Fine),
        Err(e) => st.answers(Answer::NotAdded(e)),
    }
}

// The first region is held against an empty table; the one that `memory` made goes only when it is taken.
fn first_region(table: &mut [u64], size: usize, region: Region) -> Result<(), AddError> {
    let mut empty = [0u64; TABLE_WORDS];
    adding::add_region(&mut empty, size, region)?;
    table.fill(0);
    store(table, &empty);
    Ok(())
}

// The commands on a part of the image, which is as long as the command says.
pub fn on_place(ready: &Ready, start: usize, end: usize, space: &mut [u8]) -> Answer
    requires { (start ≤ end) × (end ≤ length space.old) }
{
    match ready.command {
        Command::Dump => Answer::Bytes(start, end),
        _ => on_part(ready.command, ready.numbers, &mut space[start..end]),
    }
}

fn on_part(c: Command, numbers: &Numbers, part: &mut [u8]) -> Answer {
    match c {
        Command::Bytes => {
            for (i, b) in part.iter_mut().enumerate() {
                *b = numbers.byte(i + 1);
            }
            Answer::Number(part.len() as u64)
        }
        Command::Fill => {
            part.fill(numbers.byte(2));
            Answer::Number(part.len() as u64)
        }
        Command::Desc => {
            let d = Descriptor::new(
                numbers.get(1),
                numbers.u32(2),
                numbers.u16(3),
                numbers.u16(4),
            );
            store(part, &d.to_bytes());
            Answer::Fine
        }
        // a number in as many bytes as there are
        _ => {
            store(part, &numbers.get(1).to_le_bytes());
            Answer::Fine
        }
    }
}

// As many as both have: copy_from_slice asks for equal lengths, which no type says here.
fn store<T: Copy>(to: &mut [T], from: &[T]) {
    for (place, x) in to.iter_mut().zip(from) {
        *place = *x;
    }
}

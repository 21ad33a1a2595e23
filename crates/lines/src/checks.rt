// SPDX-License-Identifier: Apache-2.0 AND BSD-3-Clause
// A line, or its error. Every error of the language is found here, where there is neither an image nor a table to change.
ghost use Rattle.std.specs.Prelude.{IfOk};
ghost use Rattle.lines.specs.Found.{ByCommand, HasPlace, InImage, Inside, WorksBy};

use crate::reading::Numbers;
use crate::state::{Fault, State};
use chain::DescriptorChain;
use queue::{AvailIter, Queue};
use script::commands::Command;

pub const LONGEST_LINE: usize = 4095;

// A line that can be run. Its numbers are where the caller keeps them: they are too many to be handed from call to call.
#[derive(Clone, Copy)]
pub struct Ready<'a> {
    pub command: Command,
    pub numbers: &'a Numbers,
    pub work: Work,
}

// What a command works on.
#[derive(Clone, Copy)]
pub enum Work {
    // nothing but the image
    Whole,
    // the bytes of the image from a place up to another: no slice, since the image is the program's to change
    Place(usize, usize),
    // nothing: `queue` makes what the others need
    Make,
    // a queue: to configure it, to take from it, to give back to it
    Config(Queue),
    Avail(Queue),
    Used(Queue),
    Pass(Queue, AvailIter),
    Chain(DescriptorChain),
}

// A line's command goes by its first word; a line without words is none. What `numbers` held before is nothing to it.
pub fn check_line<'a>(
    line: &[u8],
    size: usize,
    st: State,
    numbers: &'a mut Numbers,
) -> Result<Option<Ready<'a>>, Fault>
    ensures in_image { InImage size result }
    ensures by_command { ByCommand result }
{
    if LONGEST_LINE < line.len() {
        return Err(Fault::TooLong);
    }
    match script::words::next_word(line) {
        Some((word, rest)) => check_command(word, rest, size, st, numbers),
        None => Ok(None),
    }
}

fn check_command<'a>(
    word: &[u8],
    rest: &[u8],
    size: usize,
    st: State,
    numbers: &'a mut Numbers,
) -> Result<Option<Ready<'a>>, Fault>
    ensures in_image { InImage size result }
    ensures by_command { ByCommand result }
{
    let command = script::commands::command_of(word).ok_or(Fault::UnknownCommand)?;
    numbers.read(rest, command)?;
    let work = work_of(command, numbers, size, st)?;
    Ok(Some(Ready {
        command,
        numbers,
        work,
    }))
}

// What a command works on: a match, since a line that was checked is data.
fn work_of(c: Command, numbers: &Numbers, size: usize, st: State) -> Result<Work, Fault>
    ensures inside { IfOk result (Inside size) }
    ensures by_command { IfOk result (WorksBy c) }
{
    match c {
        Command::Memory | Command::Region | Command::Sum => Ok(Work::Whole),
        Command::Bytes
        | Command::Fill
        | Command::U16
        | Command::U32
        | Command::U64
        | Command::Desc
        | Command::Dump => place(size, numbers.get(0), extent(c, numbers)),
        Command::Queue => Ok(Work::Make),
        Command::Size
        | Command::Table
        | Command::Avail
        | Command::Used
        | Command::Ready
        | Command::Event
        | Command::NextAvail
        | Command::NextUsed
        | Command::Reset => Ok(Work::Config(queue(st)?)),
        Command::Valid | Command::Begin | Command::Pop | Command::Back | Command::Chain => Ok(
            Work::Avail(queue(st)?),
        ),
        Command::Put | Command::Stop | Command::Ask | Command::Question | Command::State => Ok(
            Work::Used(queue(st)?),
        ),
        Command::Head => Ok(Work::Pass(queue(st)?, st.pass.ok_or(Fault::NoPass)?)),
        Command::Next | Command::Readable | Command::Writable | Command::Walk => {
            queue(st)?;
            Ok(Work::Chain(st.chain.ok_or(Fault::NoChain)?))
        }
    }
}

fn queue(st: State) -> Result<Queue, Fault> {
    st.queue.ok_or(Fault::NoQueue)
}

// How many bytes of the image a command takes.
fn extent(c: Command, numbers: &Numbers) -> u64 {
    match c {
        Command::Bytes => (numbers.len() as u64).saturating_sub(1),
        Command::U16 => 2,
        Command::U32 => 4,
        Command::U64 => 8,
        Command::Desc => 16,
        _ => numbers.get(1),
    }
}

// The part of an image of this size. The test has no sum that could pass 2^64.
fn place(size: usize, offset: u64, count: u64) -> Result<Work, Fault>
    ensures inside { IfOk result (Inside size) }
    ensures part { IfOk result HasPlace }
{
    let all = size as u64;
    if all < offset {
        return Err(Fault::OutsideImage);
    }
    if all - offset < count {
        return Err(Fault::OutsideImage);
    }
    Ok(Work::Place(offset as usize, (offset + count) as usize))
}

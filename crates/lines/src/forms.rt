// SPDX-License-Identifier: Apache-2.0 AND BSD-3-Clause
// The words that each command takes, in tables that are matches.
ghost use Rattle.std.specs.Prelude.{◌≡◌, ◌≤◌, length};
ghost use Rattle.lines.specs.Forms.{kinds_of, most_of};

use script::commands::Command;

// What a number of a command may be.
#[derive(Clone, Copy)]
pub enum Kind {
    Byte,
    U16,
    // 0 or 1
    Bit,
    U32,
    U64,
    // at most 256
    Count,
    // below 2^32, or `-`
    Half,
}

// The numbers that a command takes. `bytes` takes more of its last kind, up to most_of.
pub fn kinds_of(c: Command) -> &'static [Kind]
    ensures kinds { result.now ≡ kinds_of c }
    ensures room { length result.now ≤ 65 }
{
    match c {
        Command::Memory => &[Kind::U64],
        Command::Region => &[Kind::U64, Kind::U64, Kind::U64],
        Command::Bytes => &[Kind::U64, Kind::Byte],
        Command::Fill => &[Kind::U64, Kind::U64, Kind::Byte],
        Command::U16 => &[Kind::U64, Kind::U16],
        Command::U32 => &[Kind::U64, Kind::U32],
        Command::U64 => &[Kind::U64, Kind::U64],
        Command::Desc => &[Kind::U64, Kind::U64, Kind::U32, Kind::U16, Kind::U16],
        Command::Dump => &[Kind::U64, Kind::Count],
        Command::Queue | Command::Size | Command::NextAvail | Command::NextUsed | Command::Chain =>
            &[Kind::U16],
        Command::Table | Command::Avail | Command::Used => &[Kind::Half, Kind::Half],
        Command::Ready | Command::Event => &[Kind::Bit],
        Command::Put => &[Kind::U16, Kind::U32],
        _ => &[],
    }
}

// How many numbers a command takes at most.
pub fn most_of(c: Command) -> usize
    ensures most { result ≡ most_of c }
    ensures room { result ≤ 65 }
{
    match c {
        Command::Bytes => 65,
        _ => kinds_of(c).len(),
    }
}

// SPDX-License-Identifier: Apache-2.0 AND BSD-3-Clause
// The commands, and which of them a word names.
ghost use Rattle.std.specs.Prelude.{◌≡◌};
ghost use Rattle.script.specs.Commands.{command_of};

#[derive(Clone, Copy, Debug, PartialEq, Eq)]
pub enum Command {
    Memory,
    Region,
    Bytes,
    Fill,
    U16,
    U32,
    U64,
    Desc,
    Dump,
    Sum,
    Queue,
    Size,
    Table,
    Avail,
    Used,
    Ready,
    Event,
    NextAvail,
    NextUsed,
    Reset,
    Valid,
    Begin,
    Head,
    Pop,
    Back,
    Chain,
    Next,
    Readable,
    Writable,
    Walk,
    Put,
    Stop,
    Ask,
    Question,
    State,
}

// The command that a word names.
// (No FromStr: its error would say no more than None.)
#[tactic(auto, using(crate::specs::Commands::command_of_no_text))]
pub fn command_of(word: &[u8]) -> Option<Command>
    ensures { result ≡ command_of word.now }
{
    named(std::str::from_utf8(word).ok()?)
}

#[tactic(auto, unfolding(crate::specs::Commands::command_of, crate::specs::Commands::command_in, crate::specs::Commands::table, crate::specs::Commands::same_bytes, crate::specs::Text::text_bytes))]
fn named(word: &str) -> Option<Command>
    ensures { result ≡ command_of word.now }
{
    match word {
        "memory" => Some(Command::Memory),
        "region" => Some(Command::Region),
        "bytes" => Some(Command::Bytes),
        "fill" => Some(Command::Fill),
        "u16" => Some(Command::U16),
        "u32" => Some(Command::U32),
        "u64" => Some(Command::U64),
        "desc" => Some(Command::Desc),
        "dump" => Some(Command::Dump),
        "sum" => Some(Command::Sum),
        "queue" => Some(Command::Queue),
        "size" => Some(Command::Size),
        "table" => Some(Command::Table),
        "avail" => Some(Command::Avail),
        "used" => Some(Command::Used),
        "ready" => Some(Command::Ready),
        "event" => Some(Command::Event),
        "next-avail" => Some(Command::NextAvail),
        "next-used" => Some(Command::NextUsed),
        "reset" => Some(Command::Reset),
        "valid" => Some(Command::Valid),
        "begin" => Some(Command::Begin),
        "head" => Some(Command::Head),
        "pop" => Some(Command::Pop),
        "back" => Some(Command::Back),
        "chain" => Some(Command::Chain),
        "next" => Some(Command::Next),
        "readable" => Some(Command::Readable),
        "writable" => Some(Command::Writable),
        "walk" => Some(Command::Walk),
        "put" => Some(Command::Put),
        "stop" => Some(Command::Stop),
        "ask" => Some(Command::Ask),
        "question" => Some(Command::Question),
        "state" => Some(Command::State),
        _ => None,
    }
}

// SPDX-License-Identifier: Apache-2.0 AND BSD-3-Clause
// The words, numbers and commands of a line, for a caller that has places in the line and no slices of it. Any places will do: there
// is no word past the line's end, and what ends past it, or before it starts, has no bytes and says nothing.
ghost use Rattle.std.specs.Prelude.{◌≡◌};
ghost use Rattle.script.specs.Commands.{command_of};
ghost use Rattle.script.specs.Numbers.{number_of};
ghost use Rattle.script.specs.Words.{word_bytes, word_from};

use crate::commands::{Command, command_of};
use crate::numbers::read_number;
use crate::words::next_word;

// The place of the first byte of the first word from a place on, and the place after its last, where to look for the next one.
#[tactic(auto, using(crate::specs::Words::word_from_past, crate::specs::WordFacts::next_word_within, crate::specs::WordFacts::word_from_next))]
pub fn word_at(line: &[u8], from: usize) -> Option<(usize, usize)>
    ensures { result ≡ word_from line.now from }
{
    let (word, after) = next_word(line.get(from..)?)?;
    let end = line.len() - after.len();
    Some((end - word.len(), end))
}

// The number that the word from start up to end says.
pub fn number_at(line: &[u8], start: usize, end: usize) -> Option<u64>
    ensures { result ≡ number_of (word_bytes line.now start end) }
{
    read_number(word_bytes(line, start, end))
}

// The command that the word from start up to end names.
pub fn command_at(line: &[u8], start: usize, end: usize) -> Option<Command>
    ensures { result ≡ command_of (word_bytes line.now start end) }
{
    command_of(word_bytes(line, start, end))
}

#[tactic(auto, unfolding(crate::specs::Words::word_bytes))]
fn word_bytes(line: &[u8], start: usize, end: usize) -> &[u8]
    ensures { result.now ≡ word_bytes line.now start end }
{
    line.get(start..end).unwrap_or(&[])
}

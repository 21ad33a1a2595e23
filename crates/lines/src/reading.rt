// SPDX-License-Identifier: Apache-2.0 AND BSD-3-Clause
// The words after a command, read as its numbers.
ghost use Rattle.std.specs.Prelude.{◌≡◌, ◌%◌, ◌<◌, ◌≤◌, ◌^◌, [], length, min, MatchResult, Ok, Err, Some, None, OnOk, SomeIff, not, eqb};
ghost use Rattle.lines.specs.Forms.{kind_at, largest};
ghost use Rattle.lines.specs.Read.{is_dash, number_as, number_at, numbers_from, numbers_of, words_of};
ghost use Rattle.lines.specs.declared.state.Fault.TheVariants.{NotNumber};

use crate::forms;
use crate::forms::Kind;
use crate::state::Fault;
use arrayvec::ArrayVec;
use script::commands::Command;
use script::words::Words;

// The numbers of a line. There is room for the most that a command takes.
#[derive(Drop)]
pub struct Numbers {
    pub values: ArrayVec<u64, 65>,
}

// Stands for a `-`: a half is below it. Options in place of the numbers would be no plainer, since two at most can be `-`.
pub const NOT_GIVEN: u64 = 0x1_0000_0000;

impl Numbers {
    // None yet: `read` puts those of a line in their place.
    pub fn new() -> Numbers
        ensures { result.values.items ≡ [] }
    {
        Numbers {
            values: ArrayVec::new(),
        }
    }

    // The words of a line after its command become numbers, from left to right, in place of those that were there.
    pub fn read(&mut self, words: &[u8], c: Command) -> Result<(), Fault>
        ensures room { OnOk result (length self.new.values.items ≤ 65) }
        ensures numbers { MatchResult result (λ _. numbers_of c (words_of words.now) ≡ Ok self.new.values.items) (λ e. numbers_of c (words_of words.now) ≡ Err e) }
    {
        let most = forms::most_of(c);
        let len = count_words(words, most + 1);
        if len < forms::kinds_of(c).len() || most < len {
            return Err(Fault::WrongWords);
        }
        self.read_all(words, c)
    }

    fn read_all(&mut self, words: &[u8], c: Command) -> Result<(), Fault>
        requires { length (words_of words.now) ≤ 65 }
        ensures room { OnOk result (length self.new.values.items ≤ 65) }
        ensures numbers { MatchResult result (λ _. numbers_from c 0 (words_of words.now) ≡ Some self.new.values.items) (λ e. (numbers_from c 0 (words_of words.now) ≡ None) × (e ≡ NotNumber)) }
    {
        self.values.clear();
        for word in Words(words) {
            let Some(value) = read_kind(word, kind_at(c, self.values.len())) else {
                return Err(Fault::NotNumber);
            };
            self.values.push(value);
        }
        Ok(())
    }

    pub fn len(&self) -> usize
        ensures { result ≡ length self.now.values.items }
    {
        self.values.len()
    }

    // Number i; 0 where the line has none.
    pub fn get(&self, i: usize) -> u64
        ensures { result ≡ number_at self.now i }
    {
        self.values.get(i).copied().unwrap_or(0)
    }

    // A number of its kind fits: reading has seen to it. Three of one shape, since std has no trait over casts.
    pub fn byte(&self, i: usize) -> u8
        ensures { result ≡ number_at self.now i % 2 ^ 8 }
    {
        (self.get(i) % 0x100) as u8
    }

    pub fn u16(&self, i: usize) -> u16
        ensures { result ≡ number_at self.now i % 2 ^ 16 }
    {
        (self.get(i) % 0x1_0000) as u16
    }

    pub fn u32(&self, i: usize) -> u32
        ensures { result ≡ number_at self.now i % 2 ^ 32 }
    {
        (self.get(i) % 0x1_0000_0000) as u32
    }

    pub fn bit(&self, i: usize) -> bool
        ensures { result ≡ not (eqb (number_at self.now i) 0) }
    {
        self.get(i) != 0
    }

    // A half that is given; none where `-` stands.
    pub fn half(&self, i: usize) -> Option<u32>
        ensures { SomeIff result (number_at self.now i < 2 ^ 32) (number_at self.now i) }
    {
        u32::try_from(self.get(i)).ok()
    }
}

// How many words there are, up to a number: one more than a command takes says enough, and a line may have thousands.
fn count_words(words: &[u8], most: usize) -> usize
    ensures { result ≡ min most (length (words_of words.now)) }
{
    Words(words).take(most).count()
}

// The last kind goes on.
#[tactic(auto, unfolding(crate::specs::Forms::kind_at))]
fn kind_at(c: Command, i: usize) -> Kind
    ensures { result ≡ kind_at c i }
{
    let kinds = forms::kinds_of(c);
    kinds.get(i).or(kinds.last()).copied().unwrap_or(Kind::U64)
}

// The number that a word says, where it is one of its kind.
#[tactic(auto, unfolding(crate::specs::Read::number_as))]
fn read_kind(word: &[u8], kind: Kind) -> Option<u64>
    ensures { result ≡ number_as kind word.now }
{
    if is_dash(word, kind) {
        return Some(NOT_GIVEN);
    }
    script::numbers::read_number(word).filter(|n| *n <= largest(kind))
}

// A `-`, where a half may stand.
fn is_dash(word: &[u8], kind: Kind) -> bool
    ensures { result ≡ is_dash kind word.now }
{
    match kind {
        Kind::Half => word.len() == 1 && word[0] == b'-',
        _ => false,
    }
}

fn largest(kind: Kind) -> u64
    ensures { result ≡ largest kind }
{
    match kind {
        Kind::Byte => 255,
        Kind::U16 => 65535,
        Kind::Bit => 1,
        Kind::U32 | Kind::Half => 0xFFFF_FFFF,
        Kind::Count => 256,
        Kind::U64 => u64::MAX,
    }
}

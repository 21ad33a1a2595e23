// SPDX-License-Identifier: Apache-2.0 AND BSD-3-Clause
// The words of a line.
ghost use Rattle.std.specs.Prelude.{◌≡◌, ◌<◌, ◌≤◌, length, IfSome, MatchOption, Some, None};
ghost use Rattle.std.specs.Iterator.{at_most};
ghost use Rattle.script.specs.Words.{kind_of, next_word, run_of};

// What a byte is to the words of a line.
#[derive(Clone, Copy, Debug, PartialEq, Eq)]
pub enum Kind {
    Blank,
    Comment,
    Letter,
}

// The first word of a line, and what follows it: there the next one is looked for.
#[tactic(auto, using(crate::specs::Words::next_word_none, crate::specs::Words::next_word_some))]
pub fn next_word(line: &[u8]) -> Option<(&[u8], &[u8])>
    ensures word { MatchOption result (next_word line.now ≡ None) (λ p. next_word line.now ≡ Some (p.0.now, p.1.now)) }
    ensures shorter { IfSome result (λ p. length p.1.now < length line.now) }
{
    let rest = &line[run_of(line, Kind::Blank)..];
    let len = run_of(rest, Kind::Letter);
    if len == 0 {
        return None;
    }
    Some(rest.split_at(len))
}

// The words of a line, from left to right.
#[derive(Clone, Copy)]
pub struct Words<'a>(pub &'a [u8]);

impl<'a> Iterator for Words<'a> {
    type Item = &'a [u8];

    ghost next_gives = { λ s r t. MatchOption r ((next_word s.0.now ≡ None) × (t ≡ s)) (λ w. next_word s.0.now ≡ Some (w.now, t.0.now)) };

    ghost remaining = { λ s. at_most (length s.0.now) };

    fn next(&mut self) -> Option<&'a [u8]> {
        let (word, rest) = next_word(self.0)?;
        self.0 = rest;
        Some(word)
    }
}

// How many bytes at the front are of a kind.
fn run_of(bytes: &[u8], kind: Kind) -> usize
    ensures run { result ≡ run_of kind bytes.now }
    ensures within { result ≤ length bytes.now }
{
    bytes.iter().take_while(|b| classify(**b) == kind).count()
}

#[tactic(auto, unfolding(crate::specs::Words::kind_of))]
fn classify(b: u8) -> Kind
    ensures { result ≡ kind_of b }
{
    match b {
        b' ' | b'\t' | b'\r' => Kind::Blank,
        b'#' => Kind::Comment,
        _ => Kind::Letter,
    }
}

// SPDX-License-Identifier: Apache-2.0 AND BSD-3-Clause
// Answers as text, to any writer. What a writer with no more room does not take is left out, and no answer is longer than LONGEST_ANSWER.
#![tactic(auto)]

use adding::AddError;
use desc::Descriptor;
use lines::state::{Answer, Fault};
use queue::{Error, Queue};
use std::fmt;
use std::fmt::Formatter;
use std::io::Write;

// `dump: ` and 256 bytes, with a line feed.
pub const LONGEST_ANSWER: usize = 774;

// An error of a line, by its number.
pub fn write_fault<W: Write>(out: &mut W, number: u64, fault: Fault) {
    let text = fault_text(fault);
    let _ = writeln!(out, "error: line {number}: {text}");
}

// The answer of a line's command, after the line's first word. The image is what the answer may be about.
pub fn write_answer<W: Write>(out: &mut W, line: &[u8], answer: Answer, image: &[u8]) {
    if let Some((word, _)) = script::words::next_word(line) {
        let _ = out.write_all(word);
    }
    let said = Said { answer, image };
    let _ = writeln!(out, ": {said}");
}

// The words of the language stand in this crate alone; an impl of Display for the errors would have to stand where they are declared.
fn fault_text(fault: Fault) -> &'static str {
    match fault {
        Fault::TooLong => "too long",
        Fault::UnknownCommand => "unknown command",
        Fault::WrongWords => "wrong number of words",
        Fault::NotNumber => "not a number",
        Fault::NoQueue => "no queue",
        Fault::NoPass => "no pass",
        Fault::NoChain => "no chain",
        Fault::OutsideImage => "outside the image",
    }
}

// An answer as it is printed.
#[derive(Drop)]
struct Said<'a> {
    answer: Answer,
    image: &'a [u8],
}

impl fmt::Display for Said<'_> {
    fn fmt<W: fmt::Write>(&self, f: &mut Formatter<W>) -> fmt::Result {
        match self.answer {
            Answer::Fine => f.write_str("ok"),
            Answer::Yes => f.write_str("yes"),
            Answer::No => f.write_str("no"),
            Answer::Nothing => f.write_str("none"),
            Answer::Refused => f.write_str("refused"),
            Answer::RefusedFor(e) => write!(f, "refused {}", reason(e)),
            Answer::NotAdded(e) => write!(f, "refused {}", not_added(e)),
            Answer::Number(n) => write!(f, "{n}"),
            Answer::Sum(sum) => write!(f, "{sum:08x}"),
            Answer::Walked(count, sum) => write!(f, "{count} {sum:08x}"),
            Answer::Next(d) => descriptor(f, d),
            Answer::Fields(q) => fields(f, q),
            Answer::Bytes(start, end) => dump(f, self.image, start, end),
        }
    }
}

fn reason(e: Error) -> &'static str {
    match e {
        Error::InvalidMaxSize => "largest size",
        Error::InvalidSize => "size",
        Error::InvalidDescTableAlign | Error::InvalidAvailRingAlign | Error::InvalidUsedRingAlign =>
            "alignment",
        Error::QueueNotReady => "not ready",
        Error::InvalidAvailRingIndex => "available index",
        Error::InvalidDescriptorIndex => "descriptor index",
        Error::GuestMemory => "memory",
    }
}

fn not_added(e: AddError) -> &'static str {
    match e {
        AddError::Full => "full",
        AddError::Empty => "empty",
        AddError::PastTop => "beyond 2^64",
        AddError::PastSlice => "beyond the image",
        AddError::Overlap => "overlap",
    }
}

fn descriptor<W: fmt::Write>(f: &mut Formatter<W>, d: Descriptor) -> fmt::Result {
    write!(f, "{} {} {} {}", d.addr, d.len, d.flags, d.next)
}

fn fields<W: fmt::Write>(f: &mut Formatter<W>, q: Queue) -> fmt::Result {
    let event = u8::from(q.event_idx_enabled());
    let ready = u8::from(q.ready());
    write!(
        f,
        "{} {} {} {event} {} {ready} {} {} {}",
        q.max_size(),
        q.next_avail(),
        q.next_used(),
        q.size(),
        q.desc_table(),
        q.avail_ring(),
        q.used_ring()
    )
}

// A part at a time: a byte at a time, by `{b:02x}` or by two characters, takes more than ten times as long, and eight times as long as the older
// form by hand.
fn dump<W: fmt::Write>(
    f: &mut Formatter<W>,
    image: &[u8],
    start: usize,
    end: usize,
) -> fmt::Result {
    let bytes = &image[start.min(image.len())..];
    let bytes = &bytes[..end.saturating_sub(start).min(bytes.len())];
    for (k, part) in bytes.chunks(64).enumerate() {
        let mut text = [b' '; 192];
        for (place, b) in text.chunks_exact_mut(3).zip(part) {
            if let [_, high, low] = place {
                *high = hex(b >> 4);
                *low = hex(b & 15);
            }
        }
        // no space before the first byte
        let shown = text.get(usize::from(k == 0)..3 * part.len()).unwrap_or(&[]);
        f.write_str(std::str::from_utf8(shown).unwrap_or(""))?;
    }
    Ok(())
}

fn hex(digit: u8) -> u8 {
    b"0123456789abcdef"[(digit & 15) as usize]
}

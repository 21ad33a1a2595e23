// SPDX-License-Identifier: Apache-2.0 AND BSD-3-Clause
// Runs a script of the replay language from standard input, and writes its answers to standard output. What became of it goes to
// standard error, a line for each thing, and the command that runs this one makes an exit status of that; this one's own is 0, but for
// CLOSED.
#![tactic(auto)]

use arrayvec::ArrayVec;
use lines::state::State;
use std::fmt;
use std::io::{ErrorKind, Read, Write};
use std::process::ExitCode;

// What is known between two lines, and the room that the script has.
#[derive(Drop)]
struct Session {
    state: State,
    // How many lines have ended.
    lines: u64,
    // A line was answered with an error.
    wrong: bool,
    // Whether all answers could be written so far.
    written: Result<(), Stop>,
    // The line that has begun. There is room for one byte more than a line may have, and what it has beyond is left out: by then it is
    // too long.
    line: ArrayVec<u8, 4096>,
    // The answers that wait to be written.
    answers: ArrayVec<u8, 65536>,
    table: [u64; 24],
    // The largest image that there is.
    space: [u8; 1048576],
}

// Why a script was not run to its end.
#[derive(Clone, Copy)]
enum Stop {
    Unread,
    Unwritten(ErrorKind),
}

impl fmt::Display for Stop {
    fn fmt<W: fmt::Write>(&self, f: &mut fmt::Formatter<W>) -> fmt::Result {
        match self {
            Stop::Unread => f.write_str("the script could not be read"),
            Stop::Unwritten(_) => f.write_str("an answer could not be written"),
        }
    }
}

// The status, with no message, where the reader of the answers has closed its pipe: the one that a shell shows for a program that the
// signal SIGPIPE ended. The runtime holds that signal back, and the write fails instead.
const CLOSED: u8 = 141;

fn main(rt: HostRuntime) -> ExitCode {
    let mut session = Session::new();
    let ended = session.run(&rt);
    report(&rt, ended, session.wrong)
}

// Where standard error takes nothing nobody is left to tell.
fn report(rt: &impl Eprint, ended: Result<(), Stop>, wrong: bool) -> ExitCode {
    if let Err(Stop::Unwritten(ErrorKind::BrokenPipe)) = ended {
        return ExitCode::from(CLOSED);
    }
    if let Err(stop) = ended {
        let _ = eprintln!(rt; "queueledger: {stop}");
    }
    if wrong {
        let _ = eprintln!(rt; "queueledger: a line was answered with an error");
    }
    ExitCode::SUCCESS
}

impl Session {
    fn new() -> Session {
        Session {
            state: State::new(),
            lines: 0,
            wrong: false,
            written: Ok(()),
            line: ArrayVec::new(),
            answers: ArrayVec::new(),
            table: [0; 24],
            space: [0; 1048576],
        }
    }

    // The last line may lack its line feed. Where a read failed it is no line: nobody knows how it goes on.
    fn run(&mut self, rt: &(impl Input + Print)) -> Result<(), Stop> {
        self.read_all(rt, &mut rt.reader())?;
        if !self.line.is_empty() {
            self.end_line(rt);
            self.write_answers(rt);
        }
        self.written
    }

    // Answers are written before the next read, which may have to wait. A proved loop has to end, and nothing says that the input does:
    // so it counts up to a number that no run reaches.
    fn read_all(&mut self, rt: &impl Print, input: &mut impl Read) -> Result<(), Stop> {
        let mut buffer = [0u8; 65536];
        for _ in 0..u64::MAX {
            let n = input.read(&mut buffer).map_err(|_| Stop::Unread)?;
            if n == 0 {
                break;
            }
            self.feed(rt, &buffer[..n]);
            self.write_answers(rt);
            if self.written.is_err() {
                break;
            }
        }
        Ok(())
    }

    fn feed(&mut self, rt: &impl Print, part: &[u8]) {
        for piece in part.split_inclusive(|b| *b == b'\n') {
            let end = piece.strip_suffix(b"\n");
            let _ = self.line.write(end.unwrap_or(piece));
            if end.is_some() {
                self.end_line(rt);
            }
        }
    }

    fn end_line(&mut self, rt: &impl Print) {
        self.lines = self.lines.wrapping_add(1);
        let line = self.line.as_slice();
        match replay::line::run_line(line, self.state, &mut self.space, &mut self.table) {
            Ok(None) => {}
            Ok(Some(done)) => {
                self.state = done.state;
                wording::write_answer(&mut self.answers, line, done.answer, &self.space);
            }
            Err(fault) => {
                self.wrong = true;
                wording::write_fault(&mut self.answers, self.lines, fault);
            }
        }
        self.line.clear();
        // Answers are written when there may be no room for one more: so none was cut.
        if self.answers.remaining_capacity() <= wording::LONGEST_ANSWER {
            self.write_answers(rt);
        }
    }

    // After a write that failed none is tried: else an answer could be missing among those that are there.
    fn write_answers(&mut self, rt: &impl Print) {
        if self.written.is_ok() {
            let sent = rt.write_all(self.answers.as_slice());
            self.written = sent.map_err(|e| Stop::Unwritten(e.kind()));
        }
        self.answers.clear();
    }
}

// SPDX-License-Identifier: Apache-2.0 AND BSD-3-Clause
// A line, from its bytes to what became of it.
ghost use Rattle.std.specs.Prelude.{◌≤◌, length};
ghost use Rattle.lines.specs.Found.{Inside};
ghost use Rattle.replay.specs.Outcome.{Kept};

use crate::{chains, device, guest};
use lines::checks;
use lines::checks::{Ready, Work};
use lines::reading::Numbers;
use lines::state::{Answer, Done, Fault, State};
use queue::Error;

// Runs a line: the image is at the start of the space, the regions are in the table. A line that is an error changes nothing: the
// image and the table are what they were, and the state is the caller's own. So is it where a line has no words.
pub fn run_line(
    line: &[u8],
    st: State,
    space: &mut [u8],
    table: &mut [u64],
) -> Result<Option<Done>, Fault>
    ensures { Kept result space.old space.new table.old table.new }
{
    // An image ends where the space does, at the latest: so its size goes beside the state, whose own may say more.
    let size = st.size.min(space.len());
    let mut numbers = Numbers::new();
    match checks::check_line(line, size, st, &mut numbers)? {
        Some(ready) => {
            let done = run(&ready, size, st, space, table);
            Ok(Some(done.unwrap_or_else(|e| st.answers(Answer::RefusedFor(e)))))
        }
        None => Ok(None),
    }
}

// Runs a command by what it works on; where it is refused the state stays. A match and no closures: a line that was checked is data (Ready),
// and no function may hand out a closure.
fn run(
    ready: &Ready,
    size: usize,
    st: State,
    space: &mut [u8],
    table: &mut [u64],
) -> Result<Done, Error>
    requires inside { Inside size ready.now.work }
    requires within { size ≤ length space.old }
{
    match ready.work {
        Work::Whole => Ok(guest::on_whole(ready, size, st, space, table)),
        Work::Place(start, end) => Ok(st.answers(guest::on_place(ready, start, end, space))),
        Work::Make => device::make(ready, st),
        Work::Config(q) => device::configure(ready, q, st),
        Work::Avail(q) => Ok(device::take(ready, q, st, &space[..size], table)),
        Work::Used(q) => device::give(ready, q, st, &mut space[..size], table),
        Work::Pass(q, pass) => Ok(device::next_head(q, pass, st, &space[..size], table)),
        Work::Chain(walked) => Ok(chains::walk(ready, walked, st, &space[..size], table)),
    }
}

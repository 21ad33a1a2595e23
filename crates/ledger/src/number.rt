// SPDX-License-Identifier: Apache-2.0 AND BSD-3-Clause
// A call chosen by a number, for a caller that reads calls from a script or a trace.
ghost use Rattle.std.specs.Prelude.{◌≡◌};
ghost use Rattle.ledger.specs.Step.{call_of, Stepped};

use crate::{Args, Call, Setting, Step, make};
use queue::{AvailIter, Queue};

// 0 to 5 are the settings, 6 to 10 the positions, reset, valid and begin, 11 to 16 the calls on the rings, and every other number is the question. The numbers are
// what this crate promises (`call_of`, in its contract), for scripts and traces that hold nothing else: so they are no enum.
#[tactic(auto, unfolding(crate::specs::Step::call_of, crate::specs::Step::setting_of, crate::specs::Step::ring_call_of))]
pub fn call_of(op: u8, args: Args) -> Call
    ensures { result ≡ call_of op args }
{
    match op {
        0 => Call::Set(Setting::Size(args.number)),
        1 => Call::Set(Setting::DescTable(args.low, args.high)),
        2 => Call::Set(Setting::AvailRing(args.low, args.high)),
        3 => Call::Set(Setting::UsedRing(args.low, args.high)),
        4 => Call::Set(Setting::Ready(args.on)),
        5 => Call::Set(Setting::EventIdx(args.on)),
        6 => Call::SetNextAvail(args.number),
        7 => Call::SetNextUsed(args.number),
        8 => Call::Reset,
        9 => Call::Valid,
        10 => Call::Begin,
        11 => Call::NextHead,
        12 => Call::Pop,
        13 => Call::GoBack,
        14 => Call::Put(args.number, args.length),
        15 => Call::Stop,
        16 => Call::Ask,
        _ => Call::Question,
    }
}

pub fn step(
    op: u8,
    args: Args,
    queue: Queue,
    pass: AvailIter,
    regions: &[u64],
    mem: &mut [u8],
) -> Step
    ensures { Stepped regions.now queue pass mem.old (call_of op args) result mem.new }
{
    make::make(call_of(op, args), queue, pass, regions, mem)
}

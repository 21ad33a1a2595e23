// SPDX-License-Identifier: Apache-2.0 AND BSD-3-Clause
// The chain commands.
use chain::DescriptorChain;
use desc::Descriptor;
use lines::checks::Ready;
use lines::state::{Answer, Done, State};
use script::commands::Command;

// `next`, `readable`, `writable`, and else `walk`.
pub fn walk(
    ready: &Ready,
    walked: DescriptorChain,
    st: State,
    image: &[u8],
    table: &[u64],
) -> Done {
    match ready.command {
        Command::Next => stepped(st, walked, walked.next(table, image)),
        Command::Readable => stepped(
            st,
            to_end(walked, image, table).rest,
            walked.next_readable(table, image),
        ),
        Command::Writable => stepped(
            st,
            to_end(walked, image, table).rest,
            walked.next_writable(table, image),
        ),
        _ => whole(st, to_end(walked, image, table)),
    }
}

// A step, or none: then `rest` is what the chain has come to.
fn stepped(st: State, rest: DescriptorChain, step: Option<(Descriptor, DescriptorChain)>) -> Done {
    match step {
        Some((d, after)) => st.with_chain(after).answers(Answer::Next(d)),
        None => st.with_chain(rest).answers(Answer::Nothing),
    }
}

// A chain walked to its end: how many descriptors came, the sum of their bytes so far, and what the chain has come to.
#[derive(Clone, Copy)]
struct Ended {
    count: u16,
    sum: u32,
    rest: DescriptorChain,
}

fn whole(st: State, e: Ended) -> Done {
    st.with_chain(e.rest)
        .answers(Answer::Walked(e.count, script::crc::crc_end(e.sum)))
}

// Each descriptor takes one from the ration, so there are no more of them than the ration says.
fn to_end(walked: DescriptorChain, image: &[u8], table: &[u64]) -> Ended {
    let mut e = Ended {
        count: 0,
        sum: script::crc::crc_start(),
        rest: walked,
    };
    for i in 0..walked.ttl {
        let Some((d, after)) = e.rest.next(table, image) else {
            break;
        };
        e = Ended {
            count: i + 1,
            sum: script::crc::crc_more(e.sum, &d.to_bytes()),
            rest: after,
        };
    }
    e
}

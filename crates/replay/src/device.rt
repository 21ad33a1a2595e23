// SPDX-License-Identifier: Apache-2.0 AND BSD-3-Clause
// The queue commands: what the device does. Not by way of ledger::make: the language also keeps and drops passes and chains, and `head` and `pop`
// make one.
use chain::DescriptorChain;
use lines::checks::Ready;
use lines::state::{Answer, Done, State};
use queue::{AvailIter, Error, Queue};
use script::commands::Command;

// `queue`: where it is refused the old queue, pass and chain stay.
pub fn make(ready: &Ready, st: State) -> Result<Done, Error> {
    let q = Queue::new(ready.numbers.u16(0))?;
    Ok(st.afresh(q).answers(Answer::Fine))
}

// The setters and `reset`.
pub fn configure(ready: &Ready, q: Queue, st: State) -> Result<Done, Error> {
    let n = ready.numbers;
    let changed = match ready.command {
        Command::Size => q.set_size(n.u16(0))?,
        Command::Table => q.set_desc_table_address(n.half(0), n.half(1))?,
        Command::Avail => q.set_avail_ring_address(n.half(0), n.half(1))?,
        Command::Used => q.set_used_ring_address(n.half(0), n.half(1))?,
        Command::Ready => q.set_ready(n.bit(0)),
        Command::Event => q.set_event_idx(n.bit(0)),
        Command::NextAvail => q.set_next_avail(n.u16(0)),
        Command::NextUsed => q.set_next_used(n.u16(0)),
        _ => return Ok(st.afresh(q.reset()).answers(Answer::Fine)),
    };
    Ok(st.with_queue(changed).answers(Answer::Fine))
}

// `valid`, `begin`, `pop`, `back`, and else `chain`.
pub fn take(ready: &Ready, q: Queue, st: State, image: &[u8], table: &[u64]) -> Done {
    match ready.command {
        Command::Valid => st.answers(Answer::from(q.is_valid(table, image))),
        Command::Begin => begun(st, q.iter(table, image)),
        Command::Pop => taken(st.with_pass(None), q.pop_descriptor_chain(table, image)),
        Command::Back => st
            .with_queue(q.go_to_previous_position())
            .answers(Answer::Fine),
        _ => chain_at(st, q, ready.numbers.u16(0)),
    }
}

// A pass that is refused drops the one before.
fn begun(st: State, pass: Result<AvailIter, Error>) -> Done {
    match pass {
        Ok(pass) => st.with_pass(Some(pass)).answers(Answer::Fine),
        Err(e) => st.with_pass(None).answers(Answer::RefusedFor(e)),
    }
}

// A head becomes the current chain.
fn taken(st: State, head: Option<(u16, Queue)>) -> Done {
    match head {
        Some((head, q)) => chain_at(st.with_queue(q), q, head),
        None => st.answers(Answer::Nothing),
    }
}

// A chain keeps the table and the size that the queue has now.
fn chain_at(st: State, q: Queue, head: u16) -> Done {
    st.with_chain(DescriptorChain::new(q.desc_table(), q.size(), head))
        .answers(Answer::Number(u64::from(head)))
}

// `head`.
pub fn next_head(q: Queue, pass: AvailIter, st: State, image: &[u8], table: &[u64]) -> Done {
    taken(st, q.next_head(pass, table, image))
}

// `put`, `stop`, `ask`, `question`, and else `state`.
pub fn give(
    ready: &Ready,
    q: Queue,
    st: State,
    image: &mut [u8],
    table: &[u64],
) -> Result<Done, Error> {
    let n = ready.numbers;
    match ready.command {
        Command::Put => {
            let put = q.add_used(table, image, n.u16(0), n.u32(1))?;
            Ok(st.with_queue(put).answers(Answer::Fine))
        }
        Command::Stop => {
            q.disable_notification(table, image)?;
            Ok(st.answers(Answer::Fine))
        }
        Command::Ask => {
            let more = q.enable_notification(table, image)?;
            Ok(st.answers(Answer::from(more)))
        }
        Command::Question => {
            let (needed, asked) = q.needs_notification(table, image)?;
            Ok(st.with_queue(asked).answers(Answer::from(needed)))
        }
        _ => Ok(st.answers(Answer::Fields(q))),
    }
}

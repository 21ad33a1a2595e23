// SPDX-License-Identifier: Apache-2.0 AND BSD-3-Clause
// The queue in ten words that the caller lends, and numbers for answers: what crosses the C interface. `lent_calls` has the calls on
// them, `lent_chain` chains and walks, and `queueledger_c` exports all of it.
// Widening stands as `as` where a contract speaks of the number itself.
#![tactic(auto)]

pub mod refusal; // refusal.rt: why a call is refused, and the number of each reason
pub mod state; // state.rt: the queue in ten words
pub mod answers; // answers.rt: the library's answers as replies

// SPDX-License-Identifier: Apache-2.0 AND BSD-3-Clause
// The replay language over the library: a line that was checked (`lines`) is run. `wording` has its answer as text.
#![tactic(auto)]

mod guest; // guest.rt: what the guest does to the image
mod device; // device.rt: what the device does with the queue
mod chains; // chains.rt: what the device does with a chain
pub mod line; // line.rt: a line, from its bytes to its answer

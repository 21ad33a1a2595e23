// SPDX-License-Identifier: Apache-2.0 AND BSD-3-Clause
// The lines of the replay language: what each one says, or its error. Nothing here has the image or the table to change, so a line that is
// an error changes nothing.
#![tactic(auto)]

pub mod state; // state.rt: what a line may find and leave
mod forms; // forms.rt: which words each command takes
pub mod reading; // reading.rt: the words of a line as numbers
pub mod checks; // checks.rt: a line, or its error

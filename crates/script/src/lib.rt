// SPDX-License-Identifier: Apache-2.0 AND BSD-3-Clause
// What the replay language is read with: the words of a line, the numbers and the commands among them, and the checksum that
// `sum` and `walk` answer with. Every public function answers for any argument.
#![tactic(auto)]

pub mod commands;
pub mod crc;
pub mod numbers;
pub mod places;
pub mod words;

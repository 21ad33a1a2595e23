// SPDX-License-Identifier: Apache-2.0 AND BSD-3-Clause
// The round of the speed comparison, over the port. It reads eight numbers, `ROUNDS EVENT REGIONS SIZE DESC AVAIL USED LEN`, so that
// nothing is constant, and prints the sum and the image's checksum; bench/round does the same over the crate.
#![tactic(auto)]

mod input; // input.rt: the eight numbers
mod image; // image.rt: regions, descriptors, the available ring's entries, the checksum
mod rounds; // rounds.rt: the driver's part and the device's

use arrayvec::ArrayVec;
use input::Numbers;
use std::io;
use std::io::Read;

// What the text has beyond its room is not read.
fn main(rt: HostRuntime) -> io::Result<()> {
    let mut text = ArrayVec::<u8, 4096>::new();
    io::copy(&mut rt.reader().take(4096), &mut text)?;
    match input::parse(text.as_slice()).and_then(run) {
        Some((sum, checksum)) => println!(rt; "{sum} {checksum}"),
        None => println!(rt; "refused"),
    }
}

// The sum and the checksum. The image is the end of the space.
fn run(n: Numbers) -> Option<(u64, u64)> {
    let mut space = [0u8; 65536];
    let mut table = [0u64; 24];
    let from = space.len().checked_sub(n.len)?;
    let mem = &mut space[from..];
    image::add_regions(n.regions, mem.len(), &mut table);
    image::lay(n, &table, mem);
    let q = rounds::configure(n)?;
    let sum = rounds::all(n, q, &table, mem);
    Some((sum, image::checksum(mem)))
}

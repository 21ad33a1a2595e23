// SPDX-License-Identifier: Apache-2.0 AND BSD-3-Clause
// Chains that a driver lays, and why one is refused, in words: one region of 256 bytes at guest address 0, and in it a table of 8
// descriptors at guest address 0. The replay language has no command for this; scripts show the rest of what a chain does.
#![tactic(auto)]

ghost use Rattle.std.specs.Prelude.{◌≡◌, length};
ghost use Rattle.chain.specs.Steps.{chain_at, walk_of};

use chain::lay::LayError;
use chain::{DescriptorChain, lay};
use std::{fmt, io};

// A guest's memory, and the table that says where it lies.
#[derive(Drop)]
struct Guest {
    regions: [u64; 3],
    mem: [u8; 256],
}

// Two descriptors to lay into a table of 8 at guest address table: their places and lens, and the flags of the second.
#[derive(Clone, Copy)]
struct Two {
    table: u64,
    places: [u16; 2],
    lens: [u32; 2],
    flags: u16,
}

impl Guest {
    // How many descriptors the chain from head on has.
    fn count(&self, head: u16) -> u16
        ensures { result ≡ length (walk_of self.now.regions self.now.mem (chain_at 0 8 head)) }
    {
        let mut c = DescriptorChain::new(0, 8, head);
        let mut n: u16 = 0;
        while let Some((_, rest)) = c.next(&self.regions, &self.mem) {
            c = rest;
            n += 1;
        }
        n
    }

    fn lay(&mut self, two: Two) -> Laid {
        Laid(lay::lay_chain(
            &self.regions,
            &mut self.mem,
            two.table,
            8,
            &two.places,
            &[4096, 8192],
            &two.lens,
            &[0, two.flags],
        ))
    }

    // Three lengths for two places.
    fn lay_uneven(&mut self) -> Laid {
        Laid(lay::lay_chain(
            &self.regions,
            &mut self.mem,
            0,
            8,
            &[6, 2],
            &[4096, 8192],
            &[5, 7, 9],
            &[0, 2],
        ))
    }
}

// What laying a chain answered, in words.
#[derive(Drop)]
struct Laid(Result<(), LayError>);

impl fmt::Display for Laid {
    fn fmt<W: fmt::Write>(&self, f: &mut fmt::Formatter<W>) -> fmt::Result {
        f.write_str(match self.0 {
            Ok(()) => "laid",
            Err(LayError::BadCount) => "refused, count",
            Err(LayError::BadPlace) => "refused, place beyond the table",
            Err(LayError::SamePlace) => "refused, place named twice",
            Err(LayError::Indirect) => "refused, indirect",
            Err(LayError::TooLong) => "refused, sum of lengths",
            Err(LayError::Unmapped) => "refused, memory",
        })
    }
}

fn main(rt: HostRuntime) -> io::Result<()> {
    let mut guest = Guest {
        regions: [0, 256, 0],
        mem: [0; 256],
    };
    let good = Two {
        table: 0,
        places: [6, 2],
        lens: [5, 7],
        flags: 2,
    };
    println!(&rt;
        "lens 5 and 7 at places 6 and 2, the second writable: {}",
        guest.lay(good)
    )?;
    println!(&rt; "  descriptors from 6 on: {}", guest.count(6))?;
    println!(&rt; "three lengths for two places: {}", guest.lay_uneven())?;
    let refused = [
        (
            "a place of 8",
            Two {
                places: [6, 8],
                ..good
            },
        ),
        (
            "place 6 twice",
            Two {
                places: [6, 6],
                ..good
            },
        ),
        ("flag 4", Two { flags: 4, ..good }),
        (
            "lens 0xffffffff and 1",
            Two {
                lens: [0xffffffff, 1],
                flags: 0,
                ..good
            },
        ),
        (
            "a table at 240",
            Two {
                table: 240,
                places: [0, 1],
                ..good
            },
        ),
    ];
    for (text, two) in refused {
        println!(&rt; "{text}: {}", guest.lay(two))?;
    }
    println!(&rt; "and still descriptors from 6 on: {}", guest.count(6))
}

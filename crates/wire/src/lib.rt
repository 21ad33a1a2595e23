// SPDX-License-Identifier: Apache-2.0 AND BSD-3-Clause
// Values of a fixed number of bytes, and how they lie in a slice. Numbers lie lowest byte first, and nothing else in the library knows
// how a number is laid into bytes.
#![tactic(auto)]

ghost use Rattle.std.specs.Prelude.{ℕ, List, ◌≡◌, ◌+◌, ◌≤◌, ◌<◌, length};
ghost use Rattle.std.proofs.Common.{rules};
ghost use Rattle.std.proofs.lemmas.List.Edits.{sets};
ghost use Rattle.wire.specs.Number.{number, bytes, length-bytes};
ghost use Rattle.wire.specs.Part.{part};

// A value that lies in guest memory as SIZE bytes, at most as many as a descriptor has: so a buffer of 16 bytes holds any. `get` and `put`
// require that the bytes are in the slice: `memory` has found that out when it calls. The place stands beside the slice: cutting a part out
// at each field would be no plainer.
pub trait Stored: Copy {
    const SIZE: u32;

    ghost SIZE: { ℕ };

    // the value that SIZE bytes make, and the bytes of a value
    ghost of_bytes: { List ℕ → Self };

    ghost to_bytes: { Self → List ℕ };

    fn get(s: &[u8], i: usize) -> Self
        requires { i + SIZE ≤ length s.now }
        ensures { result ≡ of_bytes (part s.now i SIZE) };

    fn put(self, s: &mut [u8], i: usize)
        requires { i + SIZE ≤ length s.old }
        ensures { s.new ≡ sets s.old i (to_bytes self) };

    ghost sized: { (1 ≤ SIZE) × (SIZE ≤ 16) };

    ghost length_is: { (x : Self) → length (to_bytes x) ≡ SIZE };
}

// The numbers: three impls of one shape, since std has no trait over from_le_bytes and to_le_bytes, and a macro may write no impl here.
impl Stored for u16 {
    const SIZE: u32 = 2;

    ghost SIZE = { 2 };

    ghost of_bytes = { number };

    ghost to_bytes = { bytes 2 };

    fn get(s: &[u8], i: usize) -> u16 {
        u16::from_le_bytes([s[i], s[i + 1]])
    }

    fn put(self, s: &mut [u8], i: usize) {
        s[i..i + 2].copy_from_slice(&self.to_le_bytes());
    }

    ghost sized = { Prim.search rules };

    ghost length_is = { length-bytes 2 };
}

impl Stored for u32 {
    const SIZE: u32 = 4;

    ghost SIZE = { 4 };

    ghost of_bytes = { number };

    ghost to_bytes = { bytes 4 };

    fn get(s: &[u8], i: usize) -> u32 {
        u32::from_le_bytes([s[i], s[i + 1], s[i + 2], s[i + 3]])
    }

    fn put(self, s: &mut [u8], i: usize) {
        s[i..i + 4].copy_from_slice(&self.to_le_bytes());
    }

    ghost sized = { Prim.search rules };

    ghost length_is = { length-bytes 4 };
}

impl Stored for u64 {
    const SIZE: u32 = 8;

    ghost SIZE = { 8 };

    ghost of_bytes = { number };

    ghost to_bytes = { bytes 8 };

    fn get(s: &[u8], i: usize) -> u64 {
        u64::from_le_bytes([
            s[i],
            s[i + 1],
            s[i + 2],
            s[i + 3],
            s[i + 4],
            s[i + 5],
            s[i + 6],
            s[i + 7],
        ])
    }

    fn put(self, s: &mut [u8], i: usize) {
        s[i..i + 8].copy_from_slice(&self.to_le_bytes());
    }

    ghost sized = { Prim.search rules };

    ghost length_is = { length-bytes 8 };
}

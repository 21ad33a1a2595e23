// SPDX-License-Identifier: Apache-2.0 AND BSD-3-Clause
// The numbers of a line.
ghost use Rattle.std.specs.Prelude.{◌≡◌, ◌≤◌};
ghost use Rattle.script.specs.Numbers.{numeral, number_of};

// The number that a word says: hexadecimal after `0x`, else decimal.
#[tactic(auto, using(crate::specs::Numbers::marked_prefix), unfolding(crate::specs::Numbers::number_of))]
pub fn read_number(word: &[u8]) -> Option<u64>
    ensures { result ≡ number_of word.now }
{
    match word.strip_prefix(b"0x") {
        Some(digits) => value_of(digits, 16),
        None => value_of(word, 10),
    }
}

// The value of digits. One that does not fit is refused before it could wrap: a word may have thousands of digits.
#[tactic(auto, using(crate::specs::Numbers::reading))]
fn value_of(digits: &[u8], base: u32) -> Option<u64>
    requires least { 2 ≤ base }
    requires most { base ≤ 16 }
    ensures { result ≡ numeral base digits.now }
{
    if digits.is_empty() {
        return None;
    }
    let mut value: u64 = 0;
    for b in digits {
        let d = char::from(*b).to_digit(base)?;
        value = value
            .checked_mul(u64::from(base))?
            .checked_add(u64::from(d))?;
    }
    Some(value)
}

// SPDX-License-Identifier: Apache-2.0 AND BSD-3-Clause
// Why a call is refused, and the number of each reason (include/queueledger.h has those that the library gives itself).
ghost use Rattle.std.specs.Prelude.{◌≡◌};
ghost use Rattle.lent.specs.Refusal.{error_code, refusal_code, adding_code};
ghost use Rattle.lent.specs.declared.refusal.Refusal.TheVariants.{Call};

use adding::AddError;
use queue::Error;

#[derive(Clone, Copy, Debug, PartialEq, Eq)]
pub enum Refusal {
    // The state has fewer than ten words; one of its numbers is too large for its field.
    StateShort,
    StateField,
    // The chain has fewer than six words; one of its numbers is too large for its field.
    ChainShort,
    ChainField,
    // The array has no room for a descriptor.
    NoRoom,
    // The call's own reason.
    Call(Error),
    // A reason of the caller's own, by its number: it is answered as it is.
    Other(u32),
}

impl From<Error> for Refusal {
    ghost from_gives = { λ e r. r ≡ Call e };

    fn from(e: Error) -> Refusal {
        Refusal::Call(e)
    }
}

// A function, since `From` is for types of one's own, and neither is.
pub fn error_code(e: Error) -> u32
    ensures { result ≡ error_code e }
{
    match e {
        Error::InvalidMaxSize => 65539,
        Error::InvalidSize => 65540,
        Error::InvalidDescTableAlign => 65541,
        Error::InvalidAvailRingAlign => 65542,
        Error::InvalidUsedRingAlign => 65543,
        Error::QueueNotReady => 65544,
        Error::InvalidAvailRingIndex => 65545,
        Error::InvalidDescriptorIndex => 65546,
        Error::GuestMemory => 65547,
    }
}

impl From<Refusal> for u32 {
    ghost from_gives = { λ e n. n ≡ refusal_code e };

    fn from(e: Refusal) -> u32 {
        match e {
            Refusal::StateShort => 65537,
            Refusal::StateField => 65538,
            Refusal::ChainShort => 65549,
            Refusal::ChainField => 65550,
            Refusal::NoRoom => 65551,
            Refusal::Call(why) => error_code(why),
            Refusal::Other(number) => number,
        }
    }
}

// A function, as error_code: Result and u32 are both std's.
pub fn adding_code(x: Result<(), AddError>) -> u32
    ensures { result ≡ adding_code x }
{
    match x {
        Ok(()) => 0,
        Err(AddError::Full) => 65552,
        Err(AddError::Empty) => 65553,
        Err(AddError::PastTop) => 65554,
        Err(AddError::PastSlice) => 65555,
        Err(AddError::Overlap) => 65556,
    }
}

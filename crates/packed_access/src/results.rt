//! The result of a call.
ghost use Rattle.std.specs.Prelude.{◌≡◌};
ghost use Rattle.target_machine.specs.Plain.{result_of};
ghost use Rattle.target_machine.specs.Sound.{IsSoundCall};

use target_calls::accesses::from_lanes;
use target_machine::{Call, Unit};

// The result of a call from what its last action gave.
pub(crate) fn result_of(call: &Call, word: u32) -> u32
    requires { IsSoundCall call.now }
    ensures { result ≡ result_of call.now word }
{
    match *call {
        Call::Access(
            Unit::Memory {
                size,
                read: true,
                address,
                ..
            },
        ) => from_lanes(size, address, word),
        _ => word,
    }
}

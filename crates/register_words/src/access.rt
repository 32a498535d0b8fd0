//! Accesses of registers, and their order.
ghost use Rattle.std.specs.Prelude.{◌≡◌, ◌<◌};
ghost use Rattle.register_words.specs.Accesses.{register_place, place, dp_register_at, register_at};

use crate::register::Register;

/// A read or a write of a register.
#[derive(Clone, Copy, Debug, PartialEq, Eq)]
pub struct RegisterAccess {
    pub register: Register,
    pub is_write: bool,
}

// The place of a register among all: the debug port's, those of a port that is not known, then port by port.
#[tactic(auto, unfolding(crate::specs::Accesses::register_place))]
fn register_place(register: Register) -> usize
    ensures value { result ≡ register_place register }
    ensures bound { result < 16400 }
{
    match register {
        Register::Dpidr => 0,
        Register::Abort => 1,
        Register::CtrlStat => 2,
        Register::Dlcr => 3,
        Register::Targetid => 4,
        Register::Dlpidr => 5,
        Register::Eventstat => 6,
        Register::Banked => 7,
        Register::Select => 8,
        Register::Resend => 9,
        Register::Rdbuff => 10,
        Register::Targetsel => 11,
        Register::UnknownAp(addr) => 12 + usize::from(addr) / 4 % 4,
        Register::Ap { ap, register } => 16 + 64 * usize::from(ap) + usize::from(register) / 4,
    }
}

impl RegisterAccess {
    /// The place of an access among all, below 32,800: the reads and the writes of a register are neighbours.
    pub fn place(self) -> usize
        ensures value { result ≡ place self }
        ensures bound { result < 32800 }
    {
        2 * register_place(self.register) + usize::from(self.is_write)
    }
}

// The register of the debug port at a place below 12.
#[tactic(auto, unfolding(crate::specs::Accesses::dp_register_at))]
fn dp_at(place: u16) -> Register
    ensures { result ≡ dp_register_at place }
{
    match place {
        0 => Register::Dpidr,
        1 => Register::Abort,
        2 => Register::CtrlStat,
        3 => Register::Dlcr,
        4 => Register::Targetid,
        5 => Register::Dlpidr,
        6 => Register::Eventstat,
        7 => Register::Banked,
        8 => Register::Select,
        9 => Register::Resend,
        10 => Register::Rdbuff,
        _ => Register::Targetsel,
    }
}

/// The register at a place.
#[tactic(auto, unfolding(crate::specs::Accesses::register_at))]
pub fn register_at(place: u16) -> Register
    requires { place < 16400 }
    ensures { result ≡ register_at place }
{
    if place < 12 {
        dp_at(place)
    } else if place < 16 {
        Register::UnknownAp(4 * (place - 12) as u8)
    } else {
        Register::Ap {
            ap: ((place - 16) / 64) as u8,
            register: (4 * ((place - 16) % 64)) as u8,
        }
    }
}

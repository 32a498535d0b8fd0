//! A short list of register accesses.
ghost use Rattle.std.specs.Prelude.{◌≡◌, ◌+◌, ◌≤◌, ◌<◌, [], ◌∷◌, ◌++◌};
ghost use Rattle.access_regs.specs.Plan.{unless};
ghost use Rattle.access_regs.specs.Plans.{accesses_of};

use target_machine::RegAccess;

/// Accesses in order: the first `count` of the six, from 0 to 6. The others mean nothing.
#[derive(Clone, Copy, Debug, PartialEq, Eq)]
pub struct Plan {
    pub count: u8,
    pub accesses: [RegAccess; 6],
}

// What fills a plan after its accesses.
const NOTHING: RegAccess = RegAccess {
    ap: false,
    read: true,
    addr: 0,
    value: 0,
};

impl Plan {
    // No access.
    pub(crate) fn new() -> Plan
        ensures is { accesses_of result ≡ [] }
        ensures count { result.count ≡ 0 }
    {
        Plan {
            count: 0,
            accesses: [NOTHING; 6],
        }
    }

    // One more access.
    pub(crate) fn with(self, access: RegAccess) -> Plan
        requires { self.count < 6 }
        ensures is { accesses_of result ≡ accesses_of self ++ access ∷ [] }
        ensures count { result.count ≡ self.count + 1 }
    {
        let mut accesses = self.accesses;
        accesses[usize::from(self.count)] = access;
        Plan {
            count: self.count + 1,
            accesses,
        }
    }

    // One more access, unless it is not needed.
    pub(crate) fn with_unless(self, skipped: bool, access: RegAccess) -> Plan
        requires { self.count < 6 }
        ensures is { accesses_of result ≡ accesses_of self ++ unless skipped access }
        ensures count { result.count ≤ self.count + 1 }
    {
        if skipped { self } else { self.with(access) }
    }
}

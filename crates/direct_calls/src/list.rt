//! Calls in little room.
ghost use Rattle.std.specs.Prelude.{◌≡◌, ◌++◌, [], ◌∷◌, length, take, IfOk, OnErr, OnOk};
ghost use Rattle.target_calls.specs.Asks.{unit_ask};
ghost use Rattle.direct_calls.specs.CallLists.{ask_of};

use dap_base::OutOfMemory;
use std::alloc::Global;
use std::marker::Model;
use target_calls::Ask;
use target_machine::{Call, Unit};

// A call in a list.
#[derive(Debug, Drop)]
enum Noted {
    // A memory access of which no fault is forgiven. Most calls are one, so that these take 16 bytes, where an `Ask` takes 40.
    Memory {
        size: u8,
        read: bool,
        ap: u8,
        value: u32,
        address: u64,
    },
    // Any other call.
    Other(Box<Ask>),
}

// What was asked.
fn ask_of(noted: &Noted) -> Ask
    ensures { result ≡ ask_of noted.now }
{
    match noted {
        Noted::Memory {
            size,
            read,
            ap,
            value,
            address,
        } => Ask {
            call: Call::Access(Unit::Memory {
                size: *size,
                read: *read,
                ap: *ap,
                address: *address,
                value: *value,
            }),
            forgive: false,
            settled: false,
        },
        Noted::Other(ask) => **ask,
    }
}

/// Calls in order, in little room: a memory access of which no fault is forgiven takes 16 bytes. Contracts see the list of what was
/// asked.
#[derive(Debug, Drop)]
pub struct CallList {
    alloc: Global,
    noted: Vec<Noted>,
}

impl Model for CallList {
    ghost use Rattle.std.specs.Prelude.{List, map};
    ghost use Rattle.target_calls.specs.declared.calls.Ask.{Ask};
    ghost use Rattle.direct_calls.specs.CallLists.{ask_of};

    ghost Value = { List Ask };

    ghost view = { λ list. map ask_of list.noted.items };
}

impl CallList {
    /// No calls. Nothing is allocated.
    pub fn new(alloc: Global) -> CallList
        ensures { result ≡ [] }
    {
        CallList {
            alloc,
            noted: Vec::new(alloc),
        }
    }

    /// How many calls there are.
    pub fn len(&self) -> usize
        ensures { result ≡ length self.now }
    {
        self.noted.len()
    }

    /// Adds a call after the others. `OutOfMemory` where memory is refused; nothing has changed then.
    #[inline(never)]
    pub fn push(&mut self, ask: Ask) -> Result<(), OutOfMemory>
        ensures added { OnOk result (self.new ≡ self.old ++ ask ∷ []) }
        ensures same { OnErr result (self.new ≡ self.old) }
    {
        let Ok(other) = Box::new(self.alloc, ask) else {
            return Err(OutOfMemory);
        };
        match self.noted.push(Noted::Other(other)) {
            Ok(()) => Ok(()),
            Err(_) => Err(OutOfMemory),
        }
    }

    /// Adds an access after the other calls, of which a fault is forgiven or not. `OutOfMemory` where memory is refused; nothing has
    /// changed then.
    #[inline(always)]
    pub fn push_access(&mut self, unit: Unit, forgive: bool) -> Result<(), OutOfMemory>
        ensures added { OnOk result (self.new ≡ self.old ++ unit_ask unit forgive ∷ []) }
        ensures same { OnErr result (self.new ≡ self.old) }
    {
        match unit {
            Unit::Memory {
                size,
                read,
                ap,
                address,
                value,
            } if !forgive => {
                let access = Noted::Memory {
                    size,
                    read,
                    ap,
                    value,
                    address,
                };
                match self.noted.push(access) {
                    Ok(()) => Ok(()),
                    Err(_) => Err(OutOfMemory),
                }
            }
            _ => self.push(Ask {
                call: Call::Access(unit),
                forgive,
                settled: false,
            }),
        }
    }

    /// Drops the calls after the first `len`.
    pub fn truncate(&mut self, len: usize)
        ensures { self.new ≡ take len self.old }
    {
        self.noted.truncate(len);
    }

    /// What was asked by each call, in order. `OutOfMemory` where memory is refused.
    pub fn asks(&self) -> Result<Vec<Ask>, OutOfMemory>
        ensures { IfOk result (λ asks. asks.items ≡ self.now) }
    {
        let mut asks = Vec::new(self.alloc);
        for noted in &self.noted {
            match asks.push(ask_of(noted)) {
                Ok(()) => {}
                Err(_) => return Err(OutOfMemory),
            }
        }
        Ok(asks)
    }
}

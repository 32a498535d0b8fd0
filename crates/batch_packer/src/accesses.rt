//! Accesses in order, in room that was taken beforehand.
ghost use Rattle.std.specs.Prelude.{◌≡◌, ◌+◌, ◌<◌, ◌≤◌, ◌++◌, [], ◌∷◌, length, take, IfOk};
ghost use Rattle.batch_packer.specs.AccessLists.{Accesses};

use dap_base::OutOfMemory;
use std::alloc::Global;
use std::marker::Model;
use target_machine::RegAccess;

// An access to fill the room with.
const UNUSED: RegAccess = RegAccess {
    ap: false,
    read: true,
    addr: 0,
    value: 0,
};

/// Accesses in order, in room that was taken beforehand, so that adding one takes no memory.
/// Contracts see the accesses and how many there is room for.
#[derive(Drop)]
pub struct AccessList {
    items: Vec<RegAccess>,
    len: usize,
}

impl Model for AccessList {
    ghost use Rattle.std.specs.Prelude.{◌≤◌, length, take};
    ghost use Rattle.batch_packer.specs.AccessLists.{Accesses};

    ghost Value = { Accesses };

    ghost view = { λ a. record { items = take a.len a.items.items; room = length a.items.items } };

    ghost invariant = { λ a. a.len ≤ length a.items.items };
}

impl AccessList {
    /// An empty list with room for so many accesses, taken now. `OutOfMemory` where memory is refused.
    pub fn with_room(alloc: Global, room: usize) -> Result<AccessList, OutOfMemory>
        ensures { IfOk result (λ list. list ≡ record { items = []; room = room }) }
    {
        let Ok(mut items) = Vec::with_capacity(alloc, room) else {
            return Err(OutOfMemory);
        };
        for _ in 0..room {
            if items.push(UNUSED).is_err() {
                return Err(OutOfMemory);
            }
        }
        Ok(AccessList { items, len: 0 })
    }

    /// How many accesses there are.
    pub fn len(&self) -> usize
        ensures { result ≡ length self.now.items }
    {
        self.len
    }

    /// Adds an access after the others, where there is room for it.
    pub fn push(&mut self, access: RegAccess)
        requires { length self.old.items < self.old.room }
        ensures { self.new ≡ record self.old { items = self.old.items ++ access ∷ [] } }
    {
        self.items[self.len] = access;
        self.len += 1;
    }

    /// Forgets the accesses. The room stays.
    pub fn clear(&mut self)
        ensures { self.new ≡ record self.old { items = [] } }
    {
        self.len = 0;
    }

    /// The accesses in order.
    pub fn as_slice(&self) -> &[RegAccess]
        ensures { result.now ≡ self.now.items }
    {
        &self.items[..self.len]
    }
}

//! The values of the reads of a flight.
ghost use Rattle.std.specs.Prelude.{◌≡◌, ◌+◌, ◌*◌, ◌<◌, ◌≤◌, ◌++◌, [], ◌∷◌, length, take, IfOk};
ghost use Rattle.probe_core.specs.Ranges.{AreLimits};
ghost use Rattle.batch_packer.specs.SlotList.{SlotList, slot_at, slot_room};

use dap_base::OutOfMemory;
use probe_core::Limits;
use std::alloc::Global;
use std::marker::Model;

/// The values of the confirmed accesses of the last flight, in order; a write has none. Contracts
/// see the values and how many there is room for.
#[derive(Drop)]
pub struct Slots {
    values: Vec<Option<u32>>,
    len: usize,
}

impl Model for Slots {
    ghost use Rattle.std.specs.Prelude.{◌≤◌, length, take};
    ghost use Rattle.batch_packer.specs.SlotList.{SlotList};

    ghost Value = { SlotList };

    ghost view = { λ s. record { values = take s.len s.values.items; room = length s.values.items } };

    ghost invariant = { λ s. s.len ≤ length s.values.items };
}

impl Slots {
    /// Room for the values of any flight over these limits, taken now. `OutOfMemory` where memory is
    /// refused.
    pub fn new(alloc: Global, limits: Limits) -> Result<Slots, OutOfMemory>
        requires { AreLimits limits }
        ensures { IfOk result (λ slots. slots ≡ record { values = []; room = slot_room limits }) }
    {
        let room = 255 * limits.packet_count as usize;
        let Ok(mut values) = Vec::with_capacity(alloc, room) else {
            return Err(OutOfMemory);
        };
        for _ in 0..room {
            if values.push(None).is_err() {
                return Err(OutOfMemory);
            }
        }
        Ok(Slots { values, len: 0 })
    }

    /// The value of the read at this place of the last flight, from 0. `None` exactly where the place
    /// is no confirmed read of it.
    pub fn get(&self, place: u32) -> Option<u32>
        ensures { result ≡ slot_at self.now.values place }
    {
        let place = place as usize;
        if place < self.len {
            self.values[place]
        } else {
            None
        }
    }

    // Forgets the values of the last flight.
    pub fn clear(&mut self)
        ensures { self.new ≡ record self.old { values = [] } }
    {
        self.len = 0;
    }

    // How many values there are.
    pub fn len(&self) -> usize
        ensures { result ≡ length self.now.values }
    {
        self.len
    }

    // Adds a value after the others.
    pub fn push(&mut self, value: Option<u32>)
        requires { length self.old.values < self.old.room }
        ensures { self.new ≡ record self.old { values = self.old.values ++ value ∷ [] } }
    {
        self.values[self.len] = value;
        self.len += 1;
    }

    // Keeps the first of the values alone.
    pub fn cut(&mut self, len: usize)
        requires { len ≤ length self.old.values }
        ensures { self.new ≡ record self.old { values = take len self.old.values } }
    {
        self.len = len;
    }
}

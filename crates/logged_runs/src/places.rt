//! The places that a run reached.
ghost use Rattle.std.specs.Prelude.{◌≡◌, ◌++◌, ◌∷◌, [], drop, take, slice_get, IfOk, OnOk};
ghost use Rattle.log_lines.specs.Places.{debug_spot, spot_in_step};

use dap_base::{NameText, OutOfMemory, Place};
use sequence_trees::{Part, Spot, StepPath, copy_path};
use std::alloc::Global;
use std::marker::Model;

/// The places that a run reached: that of the running sequence, and those of its callers. Contracts see them as a list, that of the running
/// sequence first.
#[derive(Drop)]
pub(crate) struct Places {
    alloc: Global,
    // The place of the running sequence is the last.
    spots: Vec<Spot>,
}

impl Model for Places {
    ghost use Rattle.std.specs.Prelude.{List, reverse};
    ghost use Rattle.sequence_trees.specs.declared.spot.Spot.{Spot};

    ghost Value = { List Spot };

    ghost view = { λ places. reverse places.spots.items };
}

// A name, in the memory of an earlier one where that is the same.
fn name_from(alloc: Global, before: Option<NameText>, name: &str) -> Result<NameText, OutOfMemory>
    ensures { IfOk result (λ text. text ≡ name.now) }
{
    match before {
        Some(before) if before.as_str() == name => Ok(before),
        _ => NameText::new(alloc, name),
    }
}

// A path, in the memory of an earlier one where that is the same.
fn path_from(alloc: Global, before: StepPath, path: &[u64]) -> Result<StepPath, OutOfMemory>
    ensures { IfOk result (λ copy. copy ≡ path.now) }
{
    if before.as_slice() == path {
        return Ok(before);
    }
    copy_path(alloc, path)
}

// A copy of a place.
fn copy_spot(alloc: Global, spot: &Spot) -> Result<Spot, OutOfMemory>
    ensures { IfOk result (λ copy. copy ≡ spot.now) }
{
    let name = match &spot.sequence {
        None => None,
        Some(name) => Some(NameText::new(alloc, name.as_str())?),
    };
    Ok(Spot {
        sequence: name,
        path: copy_path(alloc, spot.path.as_slice())?,
        part: spot.part,
        place: spot.place,
    })
}

impl Places {
    /// No place was reached. Nothing is allocated.
    pub fn new(alloc: Global) -> Places
        ensures { result ≡ [] }
    {
        Places {
            alloc,
            spots: Vec::new(alloc),
        }
    }

    // The place of the running sequence, which leaves it.
    fn leave(&mut self) -> Option<Spot>
        ensures { self.new ≡ drop 1 self.old }
    {
        self.spots.pop()
    }

    // The running sequence comes to a place, after it left one.
    fn arrive(&mut self, spot: Spot) -> Result<(), OutOfMemory>
        ensures { OnOk result (self.new ≡ spot ∷ self.old) }
    {
        match self.spots.push(spot) {
            Ok(()) => Ok(()),
            Err(_) => Err(OutOfMemory),
        }
    }

    /// The running sequence comes to a place in one of its steps. Nothing is allocated where it was in that step.
    pub fn reach(
        &mut self,
        sequence: &str,
        path: &[u64],
        part: Part,
        place: Place,
    ) -> Result<(), OutOfMemory>
        ensures { OnOk result (self.new ≡ spot_in_step sequence.now path.now part place ∷ drop 1 self.old) }
    {
        let (name, steps) = match self.leave() {
            Some(spot) => (spot.sequence, spot.path),
            None => (None, StepPath::new(self.alloc)),
        };
        let sequence = Some(name_from(self.alloc, name, sequence)?);
        let path = path_from(self.alloc, steps, path)?;
        self.arrive(Spot {
            sequence,
            path,
            part,
            place,
        })
    }

    /// The run comes to a place in the debug variables.
    pub fn reach_debug(&mut self, place: Place) -> Result<(), OutOfMemory>
        ensures { OnOk result (self.new ≡ debug_spot place ∷ drop 1 self.old) }
    {
        let _before = self.leave();
        self.arrive(Spot {
            sequence: None,
            path: StepPath::new(self.alloc),
            part: Part::Debugvars,
            place,
        })
    }

    /// A sequence is called: it begins at the place of its call.
    pub fn call(&mut self) -> Result<(), OutOfMemory>
        ensures { OnOk result (self.new ≡ take 1 self.old ++ self.old) }
    {
        let Some(caller) = self.spots.last() else {
            return Ok(());
        };
        let spot = copy_spot(self.alloc, caller)?;
        match self.spots.push(spot) {
            Ok(()) => Ok(()),
            Err(_) => Err(OutOfMemory),
        }
    }

    /// The running sequence returns.
    pub fn return_back(&mut self)
        ensures { self.new ≡ drop 1 self.old }
    {
        let _place = self.spots.pop();
    }

    /// The place of the running sequence, none where none was reached.
    pub fn into_place(mut self) -> Option<Spot>
        ensures { result ≡ slice_get self 0 }
    {
        self.spots.pop()
    }
}

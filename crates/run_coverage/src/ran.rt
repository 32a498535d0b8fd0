//! Statements that ran, as places.
ghost use Rattle.std.specs.Prelude.{◌≡◌, ℕ, List, Bool, true, IfOk};
ghost use Rattle.std.specs.List.{AllPass};
ghost use Rattle.sequence_trees.specs.declared.spot.Part.TheVariants as parts;
ghost use Rattle.log_lines.specs.Places.{spot_in_step};
ghost use Rattle.run_coverage.specs.Items.{ran_words};
ghost use Rattle.run_coverage.specs.Ran.{is_had, ran_item_words};

use dap_base::{NameText, OutOfMemory, Place};
use sequence_trees::{StepPath, copy_path};
use std::alloc::Global;

// How many statements are remembered.
const SLOTS: usize = 256;

/// The place of a statement that ran.
#[derive(Drop)]
pub struct RanStatement {
    sequence: NameText,
    path: StepPath,
    place: Place,
}

impl RanStatement {
    /// A statement in a step of a sequence. `OutOfMemory` where memory is refused.
    pub fn new(
        alloc: Global,
        sequence: &str,
        path: &[u64],
        place: Place,
    ) -> Result<RanStatement, OutOfMemory>
        ensures { IfOk result (λ ran. ran_item_words ran ≡ ran_words (spot_in_step sequence.now path.now parts.Block place)) }
    {
        Ok(RanStatement {
            sequence: NameText::new(alloc, sequence)?,
            path: copy_path(alloc, path)?,
            place,
        })
    }

    /// Whether it is the statement at this place.
    pub fn is_at(&self, sequence: &str, path: &[u64], place: Place) -> bool
        ensures { result ≡ true → ran_item_words self.now ≡ ran_words (spot_in_step sequence.now path.now parts.Block place) }
    {
        self.place == place && self.path.as_slice() == path && self.sequence.as_str() == sequence
    }
}

/// Slots in which nothing is remembered. `OutOfMemory` where memory is refused.
#[tactic(auto, using(crate::proofs::RanLemmas::none_had))]
pub fn empty_slots(alloc: Global) -> Result<Vec<Option<RanStatement>>, OutOfMemory>
    ensures { IfOk result (λ slots. (has : List ℕ → Bool) → AllPass (is_had has) slots.items) }
{
    let mut slots = Vec::new(alloc);
    for _ in 0..SLOTS {
        slots.push(None).map_err(|_| OutOfMemory)?;
    }
    Ok(slots)
}

/// Where the statement at a place is remembered: a number that its name, its path and its place give.
pub fn slot_of(sequence: &str, path: &[u64], place: Place) -> usize {
    let mut sum = place.line.wrapping_mul(31).wrapping_add(place.column);
    if let Some(last) = path.last() {
        sum = sum.wrapping_mul(31).wrapping_add(*last);
    }
    for byte in sequence.as_bytes() {
        sum = sum.wrapping_mul(31).wrapping_add(u64::from(*byte));
    }
    (sum % SLOTS as u64) as usize
}

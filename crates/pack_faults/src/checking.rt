//! The faults of sets, put together one set after another.
ghost use Rattle.std.specs.Prelude.{◌≡◌, ◌<◌, ◌∷◌, ◌++◌, [], List, IfOk, OnOk, map, length};
ghost use Rattle.device_tree.specs.declared.pack.Pack.{Pack};
ghost use Rattle.std.specs.List.{All};
ghost use Rattle.pack_faults.specs.Answers.{IsCheckOfSet};
ghost use Rattle.pack_faults.specs.Keys.{KnowsFaultPlaces};
ghost use Rattle.pack_faults.specs.Known.{IsKnown};
ghost use Rattle.pack_faults.specs.Lined.{checked_view, IsCheckedAt};
ghost use Rattle.pack_faults.specs.Shared.{HasNumberOfSet};
ghost use Rattle.pack_faults.specs.Sets.{SetAt};
ghost use Rattle.pack_faults.specs.Views.{set_view};
ghost use Rattle.pack_faults.specs.Steps.{AreDone};

use crate::known::KnownSet;
use crate::lined::{LinedSet, lined_sets};
use crate::merging::{Faults, add_faults};
use crate::sets::SetRef;
use dap_base::{ItemList, OutOfMemory};
use set_faults::Phase;
use std::alloc::Global;

/// Sets that were checked: the phase that each reached, and what was found in them.
#[derive(Drop)]
pub struct Checking<'k> {
    pub phases: ItemList<Phase>,
    pub faults: Faults<'k>,
}

// Adds the faults of one more set, in which this was found.
fn note<'k>(
    alloc: Global,
    found: &LinedSet<'k>,
    checking: &mut Checking<'k>,
) -> Result<(), OutOfMemory>
    requires { KnowsFaultPlaces checking.old.faults.places checking.old.faults.list.items }
    ensures ok { OnOk result ((pack : Pack) (sets : List SetAt) (s : SetAt) → IsCheckOfSet pack s (checked_view found.now)
        → AreDone pack sets checking.old → AreDone pack (sets ++ s ∷ []) checking.new) }
    ensures knows { OnOk result (KnowsFaultPlaces checking.new.faults.places checking.new.faults.list.items) }
{
    let number = checking.phases.len();
    add_faults(alloc, found.faults.as_slice(), number, &mut checking.faults)?;
    checking.phases.push(found.phase)?;
    Ok(())
}

// The faults of these sets. What was found in each stands at its number.
fn faults_at<'k>(
    alloc: Global,
    found: &[LinedSet<'k>],
    sets: &[SetRef],
) -> Result<Checking<'k>, OutOfMemory>
    requires { All (λ s. s.number < length found.now) sets.now }
    ensures { IfOk result (λ checking. (pack : Pack) → All (IsCheckedAt pack found.now) sets.now → AreDone pack (map set_view sets.now) checking) }
{
    let mut checking = Checking {
        phases: ItemList::new(alloc),
        faults: Faults::new(alloc),
    };
    for at in sets {
        note(alloc, &found[at.number], &mut checking)?;
    }
    Ok(checking)
}

/// Puts the faults of these sets together, each of which is one of those that were checked, by its number.
pub fn faults_of_sets<'k>(
    alloc: Global,
    known: &'k [KnownSet],
    sets: &[SetRef],
) -> Result<Checking<'k>, OutOfMemory>
    requires known { All IsKnown known.now }
    requires within { All (λ s. s.number < length known.now) sets.now }
    ensures { IfOk result (λ checking. (pack : Pack) → All (HasNumberOfSet pack known.now) sets.now → AreDone pack (map set_view sets.now) checking) }
{
    let lined = lined_sets(alloc, known)?;
    faults_at(alloc, lined.as_slice(), sets)
}

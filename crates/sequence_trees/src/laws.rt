//! Laws of sets, as the contracts of functions that do nothing.

ghost use Rattle.std.specs.Prelude.{◌≡◌, ◌⊎◌};
ghost use Rattle.sequence_resolve.specs.declared.entry.SeqSet.{SeqSet};
ghost use Rattle.sequence_trees.specs.declared.spot.Spot.{Spot};
ghost use Rattle.sequence_trees.specs.Trees.{SetTrees};
ghost use Rattle.sequence_trees.specs.Order.{IsFirstFault};
ghost use Rattle.sequence_trees.specs.Reading.{ReadsSet};

/// A set is read as one set of trees at most.
pub fn one_reading()
    ensures { (set : SeqSet) (trees other : SetTrees) → ReadsSet set trees → ReadsSet set other → trees ≡ other }
{}

/// A set has one first fault at most.
pub fn one_first_fault()
    ensures { (set : SeqSet) (spot other : Spot) → IsFirstFault set spot → IsFirstFault set other → spot ≡ other }
{}

/// A set with a fault is not read.
pub fn read_or_faulty()
    ensures { (set : SeqSet) (trees : SetTrees) (spot : Spot) → ReadsSet set trees → IsFirstFault set spot → ⊥ }
{}

/// Each set is read, or has a first faulty text.
pub fn every_set_is_read_or_faulty()
    ensures { (set : SeqSet) → ((trees : SetTrees) × ReadsSet set trees) ⊎ ((spot : Spot) × IsFirstFault set spot) }
{}

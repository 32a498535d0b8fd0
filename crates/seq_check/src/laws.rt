//! Laws of sets, as the contracts of functions that do nothing.

ghost use Rattle.std.specs.Prelude.{◌≡◌, ◌⊎◌};
ghost use Rattle.sequence_resolve.specs.declared.entry.SeqSet.{SeqSet};
ghost use Rattle.sequence_trees.specs.declared.spot.Spot.{Spot};
ghost use Rattle.code_check.specs.declared.fault.FaultKind.{FaultKind};
ghost use Rattle.seq_check.specs.Valid.{IsValid, IsFirstFaultOf};

/// A set has one first fault at most.
pub fn one_first_fault()
    ensures { (set : SeqSet) (kind other_kind : FaultKind) (spot other : Spot)
        → IsFirstFaultOf set kind spot → IsFirstFaultOf set other_kind other → (kind ≡ other_kind) × (spot ≡ other) }
{}

/// A valid set has none.
pub fn valid_or_faulty()
    ensures { (set : SeqSet) (kind : FaultKind) (spot : Spot) → IsValid set → IsFirstFaultOf set kind spot → ⊥ }
{}

/// Each set is valid, or has a first fault.
pub fn every_set_is_valid_or_faulty()
    ensures { (set : SeqSet) → IsValid set ⊎ ((kind : FaultKind) × (spot : Spot) × IsFirstFaultOf set kind spot) }
{}

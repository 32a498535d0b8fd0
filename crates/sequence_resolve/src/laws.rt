//! Laws of effective sets, as the contracts of functions that do nothing.
ghost use Rattle.std.specs.Prelude.{◌≡◌, ◌≢◌, ◌⊎◌, ℕ, List, Option};
ghost use Rattle.device_tree.specs.declared.pack.Pack.{Pack};
ghost use Rattle.sequence_resolve.specs.declared.entry.SeqSet.{SeqSet};
ghost use Rattle.sequence_resolve.specs.declared.fault.ResolveFault.{ResolveFault};
ghost use Rattle.sequence_resolve.specs.declared.fault.ResolveFault.TheVariants as faults;
ghost use Rattle.sequence_resolve.specs.Effective.{Candidate, AreWinners};
ghost use Rattle.sequence_resolve.specs.Resolving.{IsEffectiveSet, HasNone};

/// Candidates have one list of winners at most.
pub fn one_winners()
    ensures { (cs vs ws : List Candidate) → AreWinners cs vs → AreWinners cs ws → vs ≡ ws }
{}

/// A pack has one effective set at most, for each device, variant and processor.
pub fn one_set()
    ensures { (pack : Pack) (device : List ℕ) (variant pname : Option (List ℕ)) (x y : SeqSet)
        → IsEffectiveSet pack device variant pname x → IsEffectiveSet pack device variant pname y → x ≡ y }
{}

/// Where a pack has an effective set, nothing but refused memory says that it has none.
pub fn set_or_refusal()
    ensures { (pack : Pack) (device : List ℕ) (variant pname : Option (List ℕ)) (set : SeqSet) (fault : ResolveFault)
        → IsEffectiveSet pack device variant pname set → HasNone pack device variant fault → fault ≡ faults.OutOfMemory }
{}

/// A pack has no set for one cause at most, apart from refused memory.
pub fn one_refusal()
    ensures { (pack : Pack) (device : List ℕ) (variant : Option (List ℕ)) (x y : ResolveFault)
        → HasNone pack device variant x → HasNone pack device variant y
        → x ≢ faults.OutOfMemory → y ≢ faults.OutOfMemory → x ≡ y }
{}

/// A pack has an effective set for each device, variant and processor, or a cause why it has none, which is not refused memory.
pub fn some_set_or_refusal()
    ensures { (pack : Pack) (device : List ℕ) (variant pname : Option (List ℕ)) → ((set : SeqSet) × IsEffectiveSet pack device variant pname set)
        ⊎ ((fault : ResolveFault) × HasNone pack device variant fault × (fault ≢ faults.OutOfMemory)) }
{}

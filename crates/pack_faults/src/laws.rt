//! Laws of the faults of packs, as the contracts of functions that do nothing.
ghost use Rattle.std.specs.Prelude.{◌≡◌, ◌↔◌, Bool, true, []};
ghost use Rattle.device_tree.specs.declared.pack.Pack.{Pack};
ghost use Rattle.pack_faults.specs.declared.request.PackRequest.{PackRequest};
ghost use Rattle.pack_faults.specs.declared.answer.Found.{Found};
ghost use Rattle.pack_faults.specs.declared.answer.PackFaults.{PackFaults};
ghost use Rattle.pack_faults.specs.Sets.{sets_of};
ghost use Rattle.pack_faults.specs.Merged.{same_found};
ghost use Rattle.pack_faults.specs.Answers.{ArePackFaults, AreValid};

/// What is the same is equal.
pub fn same_is_equal()
    ensures { (f g : Found) → (same_found f g ≡ true) ↔ (f ≡ g) }
{}

/// A pack has one answer.
pub fn one_answer()
    ensures { (pack : Pack) (request : PackRequest) (x y : PackFaults) → ArePackFaults pack request x → ArePackFaults pack request y → x ≡ y }
{}

/// There is no fault exactly where each of the sets is valid.
pub fn empty_where_valid()
    ensures { (pack : Pack) (request : PackRequest) (answer : PackFaults) → ArePackFaults pack request answer
        → (answer.faults ≡ []) ↔ AreValid pack (sets_of pack request) }
{}

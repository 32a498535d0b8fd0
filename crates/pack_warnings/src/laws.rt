//! Laws of the warnings of packs, as the contracts of functions that do nothing.
ghost use Rattle.std.specs.Prelude.{◌≡◌, List};
ghost use Rattle.device_tree.specs.declared.pack.Pack.{Pack};
ghost use Rattle.pack_faults.specs.declared.request.PackRequest.{PackRequest};
ghost use Rattle.pack_warnings.specs.declared.answer.PackWarning.{PackWarning};
ghost use Rattle.pack_warnings.specs.Answers.{ArePackWarnings};

/// A pack has one answer.
pub fn one_answer()
    ensures { (pack : Pack) (request : PackRequest) (x y : List PackWarning) → ArePackWarnings pack request x → ArePackWarnings pack request y → x ≡ y }
{}
